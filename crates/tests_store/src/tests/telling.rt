//! A desk's answers, in words.
use super::line::Line;
use super::*;

/// A reply's text, or a refusal's name.
pub(super) fn told(alloc: Global, answer: &Result<Reply, Refusal>) -> Result<String, AllocError> {
    match answer {
        Ok(reply) => String::from_str(alloc, reply_text(alloc, reply)?.as_str()),
        Err(refusal) => String::from_str(alloc, refusal.name()),
    }
}

fn put_component(line: &mut Line, component: &Component) -> Result<(), AllocError> {
    line.put(component.name.as_str())?;
    line.number(u64::from(component.generation.value()))
}

/// An image: length, gap and digests, and then each certificate and component.
fn put_facts(line: &mut Line, facts: &Facts) -> Result<(), AllocError> {
    line.number(facts.extent.length())?;
    line.number(facts.extent.gap())?;
    line.digest(&facts.file)?;
    line.digest(&facts.digest)?;
    line.digest(&facts.signing)?;
    for digest in facts.carried.as_slice() {
        line.put("certificate")?;
        line.digest(digest)?;
    }
    for component in facts.components.as_slice() {
        line.put("component")?;
        put_component(line, component)?;
    }
    Ok(())
}

/// The votes on a request, and the returned file.
fn put_outcome(line: &mut Line, request: &ShownRequest) -> Result<(), AllocError> {
    for shown in request.votes.as_slice() {
        line.put(shown.reviewer.as_str())?;
        line.put(shown.vote.text())?;
        if !shown.note.as_str().is_empty() {
            line.put(shown.note.as_str())?;
        }
    }
    if let Some(returned) = request.returned {
        line.put("returned")?;
        line.number(returned.length)?;
        line.digest(&returned.file)?;
        line.digest(&returned.digest)?;
    }
    Ok(())
}

/// A request as it is shown: number, submitter, title and state, its image, the votes, and the
/// returned file.
fn put_request(line: &mut Line, request: &ShownRequest) -> Result<(), AllocError> {
    line.number(request.number.value())?;
    line.put(request.submitter.as_str())?;
    line.put(request.title.as_str())?;
    line.put(request.state.text())?;
    put_facts(line, &request.facts)?;
    put_outcome(line, request)
}

/// Requests as they are shown, each ended by a semicolon.
pub(super) fn put_requests(line: &mut Line, requests: &[ShownRequest]) -> Result<(), AllocError> {
    for request in requests {
        put_request(line, request)?;
        line.text.push_str(";")?;
    }
    Ok(())
}
