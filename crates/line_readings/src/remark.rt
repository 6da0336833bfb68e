//! What a remark of a script says.

/// Why a frame never came, in the word of a remark.
#[derive(Clone, Copy, Debug, PartialEq, Eq)]
pub enum Why {
    /// Another frame met it.
    Collision,
    /// Noise, or a link that is down.
    Noise,
    /// The node that it is for had no power, or is out of reach.
    Off,
    /// An attacker kept it back.
    Withheld,
    /// The line was busy too often.
    Busy,
}

/// What a remark says. Nodes are numbered from 0, flights and rounds from 1, times are thousandths of a second.
#[derive(Clone, Copy, Debug, PartialEq, Eq)]
pub enum Said {
    /// The event before it is the nth try of a meter's reading in a round.
    Try {
        node: u32,
        round: u32,
        nth: u32,
    },
    /// A frame to one node never came.
    Lost {
        flight: u32,
        from: u32,
        to: Option<u32>,
        why: Why,
    },
    /// A node has no power for so long.
    Power {
        node: u32,
        lasts: u64,
    },
    /// There is noise on the line for so long.
    Noise {
        lasts: u64,
    },
    /// Two nodes do not hear each other for so long.
    Link {
        a: u32,
        b: u32,
        lasts: u64,
    },
}

/// A remark and its time, in thousandths of a second.
#[derive(Clone, Copy, Debug, PartialEq, Eq)]
pub struct Remark {
    pub at: u64,
    pub said: Said,
}

// The value of a key among words `key=value`.
fn value_of<'a>(words: &'a str, key: &str) -> Option<&'a str> {
    for word in words.split(' ') {
        if let Some((name, value)) = word.split_once('=') {
            if name == key {
                return Some(value);
            }
        }
    }
    None
}

fn number_of(words: &str, key: &str) -> Option<u32> {
    let value = value_of(words, key)?;
    value.parse::<u32>().ok()
}

// The thousandths that one to three digits after the point are.
fn thousandths(digits: &str) -> Option<u64> {
    let value = digits.parse::<u64>().ok()?;
    match digits.len() {
        1 => value.checked_mul(100),
        2 => value.checked_mul(10),
        3 => Some(value),
        _ => None,
    }
}

// Seconds, with at most three digits after the point, in thousandths.
fn time_of(word: &str) -> Option<u64> {
    let (whole, part) = match word.split_once('.') {
        Some((whole, digits)) => (whole, thousandths(digits)?),
        None => (word, 0),
    };
    let seconds = whole.parse::<u64>().ok()?;
    seconds.checked_mul(1000)?.checked_add(part)
}

fn lasting(words: &str) -> Option<u64> {
    let value = value_of(words, "for")?;
    time_of(value)
}

fn why_of(words: &str) -> Option<Why> {
    let value = value_of(words, "why")?;
    if value == "collision" {
        return Some(Why::Collision);
    }
    if value == "noise" {
        return Some(Why::Noise);
    }
    if value == "off" {
        return Some(Why::Off);
    }
    if value == "withheld" {
        return Some(Why::Withheld);
    }
    None
}

fn try_of(words: &str) -> Option<Said> {
    Some(Said::Try {
        node: number_of(words, "node")?,
        round: number_of(words, "reading")?,
        nth: number_of(words, "k")?,
    })
}

fn lost_of(words: &str) -> Option<Said> {
    Some(Said::Lost {
        flight: number_of(words, "flight")?,
        from: number_of(words, "from")?,
        to: number_of(words, "to"),
        why: why_of(words)?,
    })
}

fn dropped_of(words: &str) -> Option<Said> {
    Some(Said::Lost {
        flight: number_of(words, "flight")?,
        from: number_of(words, "node")?,
        to: None,
        why: Why::Busy,
    })
}

fn power_of(words: &str) -> Option<Said> {
    Some(Said::Power {
        node: number_of(words, "node")?,
        lasts: lasting(words)?,
    })
}

fn link_of(words: &str) -> Option<Said> {
    Some(Said::Link {
        a: number_of(words, "a")?,
        b: number_of(words, "b")?,
        lasts: lasting(words)?,
    })
}

// What befell the line, by the word of a remark.
fn befell(word: &str, words: &str) -> Option<Said> {
    if word == "power" {
        return power_of(words);
    }
    if word == "link" {
        return link_of(words);
    }
    if word == "noise" {
        return Some(Said::Noise {
            lasts: lasting(words)?,
        });
    }
    None
}

// What a remark says, by its word and what comes after it.
fn said_by(word: &str, words: &str) -> Option<Said> {
    if word == "try" {
        return try_of(words);
    }
    if word == "lost" {
        return lost_of(words);
    }
    if word == "dropped" {
        return dropped_of(words);
    }
    befell(word, words)
}

/// The remark that a line after its sign `#@ ` is: its time, a word, and `key=value`. None of what is said otherwise, and of words that are not known.
pub fn read_remark(text: &str) -> Option<Remark> {
    let (time, rest) = text.split_once(' ')?;
    let at = time_of(time)?;
    let (word, words) = rest.split_once(' ')?;
    let said = said_by(word, words)?;
    Some(Remark { at, said })
}

/// The time of a remark, whatever it says, in thousandths of a second.
pub fn remark_time(text: &str) -> Option<u64> {
    let (time, _) = text.split_once(' ')?;
    time_of(time)
}

/// The node and its name, of any characters, in a remark of the user's, `name NODE TEXT`, after its sign.
pub fn name_in(text: &str) -> Option<(u32, &str)> {
    let rest = text.strip_prefix("name ")?;
    let (node, name) = rest.split_once(' ')?;
    let node = node.parse::<u32>().ok()?;
    if name.is_empty() {
        return None;
    }
    Some((node, name))
}
