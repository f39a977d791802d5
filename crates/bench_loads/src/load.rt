//! Which load the program's words name.

/// A kind of load.
#[derive(Clone, Copy)]
pub enum Load {
    /// The best rate of a chain of workers.
    Simplex,
    /// The cut of a chain's period into slots.
    Slots,
    /// The check of a long schedule.
    Schedule,
}

/// How large a load is, and how often it is done.
#[derive(Clone, Copy)]
pub struct Size {
    /// The workers of a chain, its nodes, or the pairs of operations of a schedule.
    pub parts: u32,
    pub times: u32,
}

/// What the words ask for.
pub enum Work {
    /// Each load at a small size.
    All,
    /// One load.
    One(Load, Size),
}

/// The load of a name.
fn load_of(name: &str) -> Option<Load> {
    match name {
        "simplex" => Some(Load::Simplex),
        "slots" => Some(Load::Slots),
        "schedule" => Some(Load::Schedule),
        _ => None,
    }
}

/// The number that a word is.
fn number_of(word: &str) -> Option<u32> {
    word.parse().ok()
}

/// The load and the size that words name: once, where no third word says how often.
fn one_in(name: &str, size: &str, times: Option<&str>) -> Option<Work> {
    let times = match times {
        Some(word) => number_of(word)?,
        None => 1,
    };
    let parts = number_of(size)?;
    Some(Work::One(load_of(name)?, Size { parts, times }))
}

/// What the words ask for; nothing where they are none of the usage line.
pub fn work_in(words: &[String]) -> Option<Work> {
    match words {
        [word] if word.as_str() == "all" => Some(Work::All),
        [name, size] => one_in(name, size, None),
        [name, size, times] => one_in(name, size, Some(times)),
        _ => None,
    }
}
