//! What prepares a joining: the lines `allow` and `rand` right before it.
ghost use Rattle.std.specs.Prelude.{◌≡◌, ◌<◌, ◌+◌, ◌++◌, IfOk, IfSome, OnOk, OnErr, length};
ghost use Rattle.line_record.specs.Stories as spec_stories;

use crate::Story;
use crate::place::{line_place, take_place};
use std::alloc::AllocError;

/// Whether what prepares a node prepares the joining that comes next, if one comes.
pub fn is_readied(joined: Option<u32>, node: u32) -> bool
    ensures { result ≡ spec_stories.is_readied joined node }
{
    match joined {
        None => false,
        Some(meter) => node == 0 || node == meter,
    }
}

/// The place of the first node of these whose joining does not come next.
pub fn unready(joined: Option<u32>, ready: &[u32]) -> Option<usize>
    ensures value { result ≡ spec_stories.unready joined ready.now }
    ensures bound { IfSome result (λ p. p < length ready.now) }
{
    ready.iter().position(|node| !is_readied(joined, *node))
}

/// Makes a story on the line for what prepares no joining, where there is such a thing and the newest story is none. Returns its number, 0
/// where there is none. The first event of these has the number `first`, and the one after them `next`.
///
/// It fails only where memory runs out, and nothing changes then.
pub fn take_line(
    stories: &mut Vec<Story>,
    place: Option<usize>,
    first: usize,
    next: usize,
) -> Result<usize, AllocError>
    requires { IfSome place (λ p. first + p < next) }
    ensures made { OnOk result (stories.new.items ≡ spec_stories.with_line place first stories.old.items) }
    ensures number { IfOk result (λ number. number ≡ spec_stories.line_number place stories.old.items) }
    ensures err { OnErr result (stories.new.items ≡ stories.old.items) }
{
    match place {
        None => Ok(0),
        Some(p) => {
            let line = line_place(stories);
            take_place(stories, line, first + p, 0)
        }
    }
}

fn ready_owner(joined: Option<u32>, story: usize, line: usize, node: u32) -> usize
    ensures { result ≡ spec_stories.ready_owner joined story line node }
{
    if is_readied(joined, node) {
        return story;
    }
    line
}

/// Gives the events that readied something their stories: that of the joining, or that of the line.
///
/// It fails only where memory runs out.
pub fn push_owners(
    owners: &mut Vec<usize>,
    ready: &[u32],
    joined: Option<u32>,
    story: usize,
    line: usize,
) -> Result<(), AllocError>
    ensures { OnOk result (owners.new.items ≡ owners.old.items ++ spec_stories.ready_owners joined story line ready.now) }
{
    for node in ready {
        owners.push(ready_owner(joined, story, line, *node))?;
    }
    Ok(())
}
