//! The submission of the longest text.
use base::Digest;
use desk_types::{Carried, Command, Facts, Submission, Title, command_text};
use pe_image::Extent;
use sbat::{Component, ComponentName, Components, Generation};
use std::alloc::{AllocError, Global};
use std::test::Fail;

/// 64 different digests.
fn digests(alloc: Global) -> Result<Vec<Digest>, Fail> {
    let mut digests = Vec::new(alloc);
    for byte in 0..64_u8 {
        digests.push(Digest::from([byte; 32]))?;
    }
    Ok(digests)
}

/// A component with a name of 128 bytes.
fn component(alloc: Global) -> Result<Component, Fail> {
    Ok(Component {
        name: ComponentName::parse(alloc, &[b'g'; 128])?,
        generation: Generation::new(1).ok_or("a generation")?,
    })
}

/// 256 of them.
fn components(alloc: Global) -> Result<Vec<Component>, Fail> {
    let mut components = Vec::new(alloc);
    for _ in 0..256_u16 {
        components.push(component(alloc)?)?;
    }
    Ok(components)
}

/// The facts of the longest text.
fn facts(alloc: Global) -> Result<Facts, Fail> {
    let extent = Extent::new(1_024, 0).ok_or("an extent")?;
    let carried = Carried::new(digests(alloc)?).ok_or("digests")?;
    let components = Components::new(components(alloc)?).ok_or("components")?;
    Ok(Facts {
        extent,
        file: Digest::from([1; 32]),
        digest: Digest::from([2; 32]),
        signing: Digest::from([3; 32]),
        carried,
        components,
    })
}

/// The submission of the longest text.
fn submission(alloc: Global) -> Result<Command, Fail> {
    let title = Title::parse(alloc, &[b't'; 120])?;
    let facts = facts(alloc)?;
    Ok(Command::Submit(Submission { title, facts }))
}

/// The length of its text: the word and two numbers, three digests, 64 digests, 256 components, the
/// title.
const LENGTH: usize = 14 + 3 * 65 + 64 * 65 + 256 * 131 + 120;

/// The text of a copy of a command.
fn text_of_copy(alloc: Global, command: &Command) -> Result<String, AllocError> {
    let copy = command.clone()?;
    command_text(alloc, &copy)
}

/// The text of the submission.
fn longest_text(alloc: Global) -> Result<String, Fail> {
    let text = {
        let command = submission(alloc)?;
        text_of_copy(alloc, &command)
    };
    Ok(text?)
}

#[test]
fn writes_the_longest_submission(rt: HostRuntime) -> Result<(), Fail> {
    let text = longest_text(rt.alloc())?;
    assert!(rt; text.len() == LENGTH, "64 certificates and 256 components");
    assert!(rt;
        text.as_str().starts_with("submit 1024 0 0101"),
        "its beginning"
    );
    Ok(())
}
