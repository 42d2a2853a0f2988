//! Worked histories: each function's clauses give the results that the definitions have for one.
ghost use Rattle.desk_history.specs.Worked.FirstRules as first;
ghost use Rattle.desk_history.specs.Worked.Impact as impact;
ghost use Rattle.desk_history.specs.Worked.Imports as imports;
ghost use Rattle.desk_history.specs.Worked.Keys as keys;
ghost use Rattle.desk_history.specs.Worked.Levels as levels;
ghost use Rattle.desk_history.specs.Worked.Proposals as proposals;
ghost use Rattle.desk_history.specs.Worked.Returns as returns;
ghost use Rattle.desk_history.specs.Worked.Reviews as reviews;
ghost use Rattle.desk_history.specs.Worked.Rivals as rivals;
ghost use Rattle.desk_history.specs.Worked.Showing as showing;

/// Two votes of yes approve a request, and one of no rejects another.
pub fn reviews_are_answered()
    ensures answers { reviews.AnswersReviews }
    ensures history { reviews.KeepsReviews }
    ensures rows { reviews.TablesReviews }
{}

/// A signed file is returned; its certificate is listed, revoked and taken off the list.
pub fn returns_are_answered()
    ensures answers { returns.AnswersReturns }
    ensures history { returns.KeepsReturns }
    ensures rows { returns.TablesReturns }
    ensures verdicts { returns.SaysReturns }
    ensures barred { returns.BarsReturns }
    ensures either { returns.TakesEither }
{}

/// The level rises, and bars images below it.
pub fn levels_are_answered()
    ensures answers { levels.AnswersLevels }
    ensures history { levels.KeepsLevels }
    ensures says { levels.SaysLevels }
    ensures rows { levels.TablesLevels }
{}

/// A key is given again.
pub fn keys_are_answered()
    ensures answers { keys.AnswersKeys }
    ensures history { keys.KeepsKeys }
{}

/// Revocations are imported.
pub fn imports_are_answered()
    ensures answers { imports.AnswersImports }
    ensures history { imports.KeepsImports }
    ensures rows { imports.TablesImports }
{}

/// One officer proposes, and another confirms.
pub fn proposals_are_answered()
    ensures one { proposals.AnswersOne }
    ensures one_shown { proposals.ShowsOne }
    ensures repeats { proposals.RepeatsOne }
    ensures two { proposals.AnswersBoth }
    ensures two_shown { proposals.ShowsBoth }
    ensures level { proposals.AnswersLevel }
    ensures level_shown { proposals.ShowsLevel }
    ensures all_of_an_import { proposals.AnswersImport }
{}

/// A desk with one officer gets a second.
pub fn first_rules_are_answered()
    ensures answers { first.AnswersFirst }
    ensures rows { first.TablesFirst }
    ensures order { first.OrdersFirst }
{}

/// People are shown one request, and all of them.
pub fn requests_are_shown()
    ensures each { showing.TellsRequests }
    ensures all { showing.TellsAll }
{}

/// An import bars images by a digest, by a certificate and by a component, and one of them was
/// barred before: its impact, its Confirm, and impacts that are refused.
pub fn impacts_are_shown()
    ensures answers { impact.AnswersBefore }
    ensures images { impact.KeepsImages }
    ensures shown { impact.ShowsImpact }
    ensures comes_true { impact.ComesTrue }
    ensures refused { rivals.RefusesImpact }
    ensures proposal { rivals.ShowsProposal }
{}
