//! Words and their commands.

use command_words::{Command, WordsFault, command_in};
use schedule_model::Series;
use std::alloc::Global;
use std::test::Fail;

/// Words, and the command that they give, or why they give none.
type Row = (
    &'static [&'static str],
    Result<Command<'static>, WordsFault>,
);

static ROWS: [Row; 32] = [
    (
        &["plan", "P"],
        Ok(Command::Plan {
            file: "P",
            series: Series::Tasking,
            pivots: 100000,
        }),
    ),
    (
        &["plan", "P", "--pivots", "0"],
        Ok(Command::Plan {
            file: "P",
            series: Series::Tasking,
            pivots: 0,
        }),
    ),
    (
        &["plan", "P", "--pivots=1"],
        Ok(Command::Plan {
            file: "P",
            series: Series::Tasking,
            pivots: 1,
        }),
    ),
    (
        &["plan", "--pivots", "007", "P"],
        Ok(Command::Plan {
            file: "P",
            series: Series::Tasking,
            pivots: 7,
        }),
    ),
    (
        &["plan", "P", "--series", "tasking"],
        Ok(Command::Plan {
            file: "P",
            series: Series::Tasking,
            pivots: 100000,
        }),
    ),
    (
        &["plan", "P", "--series", "scatter"],
        Ok(Command::Plan {
            file: "P",
            series: Series::Scatter,
            pivots: 100000,
        }),
    ),
    (
        &["prices", "--series=scatter", "P"],
        Ok(Command::Prices {
            file: "P",
            series: Series::Scatter,
            pivots: 100000,
        }),
    ),
    (
        &["check", "P", "C", "--series", "scatter"],
        Ok(Command::Check {
            file: "P",
            certificate: "C",
            series: Series::Scatter,
        }),
    ),
    (
        &["plan", ""],
        Ok(Command::Plan {
            file: "",
            series: Series::Tasking,
            pivots: 100000,
        }),
    ),
    (
        &["prices", "P", "--pivots=1000000000"],
        Ok(Command::Prices {
            file: "P",
            series: Series::Tasking,
            pivots: 1000000000,
        }),
    ),
    (
        &["check", "P", "C"],
        Ok(Command::Check {
            file: "P",
            certificate: "C",
            series: Series::Tasking,
        }),
    ),
    (
        &["check", "--series=tasking", "P", "C"],
        Ok(Command::Check {
            file: "P",
            certificate: "C",
            series: Series::Tasking,
        }),
    ),
    (
        &["audit", "P", "Q"],
        Ok(Command::Audit {
            file: "P",
            plan: "Q",
            periods: 4,
        }),
    ),
    (
        &["audit", "P", "Q", "--periods", "1000000"],
        Ok(Command::Audit {
            file: "P",
            plan: "Q",
            periods: 1000000,
        }),
    ),
    (
        &["plan", "--", "-P"],
        Ok(Command::Plan {
            file: "-P",
            series: Series::Tasking,
            pivots: 100000,
        }),
    ),
    (&[], Err(WordsFault::Usage)),
    (&[""], Err(WordsFault::Usage)),
    (&["help"], Err(WordsFault::Usage)),
    (&["plan"], Err(WordsFault::Usage)),
    (&["plan", "P", "Q"], Err(WordsFault::Usage)),
    (&["plan", "-P"], Err(WordsFault::Usage)),
    (&["plan", "P", "--pivots", "x"], Err(WordsFault::Usage)),
    (
        &["plan", "P", "--pivots", "1000000001"],
        Err(WordsFault::Usage),
    ),
    (&["plan", "P", "--pivots"], Err(WordsFault::Usage)),
    (&["plan", "P", "--series", "tree"], Err(WordsFault::Usage)),
    (&["plan", "P", "--help"], Err(WordsFault::Usage)),
    (&["plan", "P", "--version"], Err(WordsFault::Usage)),
    (
        &["plan", "P", "--pivots", "1", "--pivots", "2"],
        Err(WordsFault::Usage),
    ),
    (&["check", "P"], Err(WordsFault::Usage)),
    (
        &["check", "P", "C", "--pivots", "1"],
        Err(WordsFault::Usage),
    ),
    (
        &["audit", "P", "Q", "--periods", "1000001"],
        Err(WordsFault::Usage),
    ),
    (&["--help"], Err(WordsFault::Usage)),
];

fn words_of(alloc: Global, row: &[&str]) -> Result<Vec<String>, Fail> {
    let mut words = Vec::new(alloc);
    for word in row {
        words.push(String::from_str(alloc, word)?)?;
    }
    Ok(words)
}

fn give(alloc: Global, words: &[String], row: &Row) -> bool {
    command_in(alloc, words) == row.1
}

fn gives(alloc: Global, row: &Row) -> Result<bool, Fail> {
    Ok(give(alloc, words_of(alloc, row.0)?.as_slice(), row))
}

#[test]
fn reads_commands(rt: HostRuntime) -> Result<(), Fail> {
    for row in &ROWS {
        if !gives(rt.alloc(), row)? {
            return Err(Fail::new(format_args!("{:?}", row.0)));
        }
    }
    Ok(())
}
