//! Laws of the definitions that this crate's contracts cite.
ghost use Rattle.std.specs.Prelude.{◌≡◌};
ghost use Rattle.desk_types.specs.Commands.{IsCommand, IsReply};
ghost use Rattle.desk_types.specs.CommandTexts.{text_of};
ghost use Rattle.desk_types.specs.ReplyTexts.{reply_text_of};
ghost use Rattle.desk_types.specs.Worked.{WritesCommands, WritesReplies};
ghost use Rattle.desk_types.specs.declared.command.Command.{Command};
ghost use Rattle.desk_types.specs.declared.reply.Reply.{Reply};

/// Different commands have different texts.
pub fn command_texts_differ()
    ensures { (a b : Command) → IsCommand a → IsCommand b → text_of a ≡ text_of b → a ≡ b }
{}

/// Different replies have different texts.
pub fn reply_texts_differ()
    ensures { (a b : Reply) → IsReply a → IsReply b → reply_text_of a ≡ reply_text_of b → a ≡ b }
{}

/// The definitions give the texts of some commands and replies that were written by hand.
pub fn worked_texts_are_written()
    ensures commands { WritesCommands }
    ensures replies { WritesReplies }
{}
