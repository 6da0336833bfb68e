//! The words of a line, by the places of their octets.
ghost use Rattle.std.specs.Prelude.{◌≡◌, ◌==◌, ◌<◌, ◌≤◌, IfSome, length, not, position};
ghost use Rattle.script_faults.specs.LineWords as line_words;

/// The octets from a place on.
pub fn rest_at(line: &[u8], at: usize) -> &[u8]
    ensures rest { result.now ≡ line_words.rest_at line.now at }
    ensures within { length result.now ≤ length line.now }
{
    &line[at.min(line.len())..]
}

/// The place of the first space.
pub fn space_at(octets: &[u8]) -> Option<usize>
    ensures at { result ≡ position (λ c. c == 32) octets.now }
    ensures within { IfSome result (λ at. at < length octets.now) }
{
    octets.iter().position(|octet| *octet == b' ')
}

// The place of the first octet that is none.
fn other_at(octets: &[u8]) -> Option<usize>
    ensures at { result ≡ position (λ c. not (c == 32)) octets.now }
    ensures within { IfSome result (λ at. at < length octets.now) }
{
    octets.iter().position(|octet| *octet != b' ')
}

/// How many octets stand before the next space.
pub fn word_length(rest: &[u8]) -> usize
    ensures length { result ≡ line_words.word_length rest.now }
    ensures within { result ≤ length rest.now }
{
    match space_at(rest) {
        Some(at) => at,
        None => rest.len(),
    }
}

/// The octets from a place on to before the next space.
#[tactic(auto, unfolding(crate::specs::LineWords::word_at))]
pub fn word_at(line: &[u8], at: usize) -> &[u8]
    ensures word { result.now ≡ line_words.word_at line.now at }
    ensures within { length result.now ≤ length line.now }
{
    let rest = rest_at(line, at);
    &rest[..word_length(rest)]
}

/// How many spaces stand from a place on.
#[tactic(auto, unfolding(crate::specs::LineWords::spaces_at))]
pub fn spaces_at(line: &[u8], at: usize) -> usize
    ensures spaces { result ≡ line_words.spaces_at line.now at }
    ensures within { result ≤ length line.now }
{
    let rest = rest_at(line, at);
    match other_at(rest) {
        Some(count) => count,
        None => rest.len(),
    }
}
