//! What a line of a file of cases says.

/// A line of a file of cases.
#[derive(Clone, Copy)]
pub enum Line<'a> {
    /// It is for the reader.
    Blank,
    /// A file.
    File {
        name: &'a str,
    },
    /// A file with the text of another.
    Like {
        name: &'a str,
        other: &'a str,
    },
    /// What follows stands in the place of these lines.
    Replace {
        first: usize,
        last: usize,
    },
    /// A case.
    Case {
        words: &'a str,
    },
    /// How often the case is tried, and the number that it is tried at first.
    Each {
        count: u32,
        first: u32,
    },
    /// The calls of inputs that fail.
    FailingReads {
        numbers: &'a str,
    },
    /// The calls of the sink that fail.
    FailingWrites {
        numbers: &'a str,
    },
    /// How many bytes a call of inputs and of the sink passes on at most.
    Pieces {
        reads: usize,
        writes: usize,
    },
    /// A run.
    Run {
        words: &'a str,
    },
    /// A run that judges what was written.
    Judge {
        model: &'a str,
    },
    /// What is owed.
    Status {
        code: u8,
        text: Wanted,
    },
    /// A text line, so many times, read at numbers from the first on.
    Text {
        text: &'a str,
        times: u32,
        first: u32,
    },
    /// The text of a file.
    All {
        name: &'a str,
    },
}

/// What a status line says of the text that is owed.
#[derive(Clone, Copy)]
pub enum Wanted {
    /// The text lines below it.
    Lines,
    /// A journal with so many entries.
    Entries(u32),
    /// What was written before.
    Before,
    /// Anything but what was written before.
    Unlike,
}

/// What the line says, if it says anything.
pub fn line_of(line: &str) -> Option<Line<'_>> {
    if line.is_empty() || line.starts_with('#') {
        return Some(Line::Blank);
    }
    let (first, rest) = line.split_once(' ').unwrap_or((line, ""));
    match first {
        "case" => Some(Line::Case { words: rest }),
        "run" => Some(Line::Run { words: rest }),
        "judge" => Some(Line::Judge { model: rest }),
        "+" => Some(Line::All { name: rest }),
        "file" => file_line(rest),
        "line" | "lines" => place_line(rest),
        "each" => each_line(rest),
        "failing" => failing_line(rest),
        "pieces" => pieces_line(rest),
        "status" => status_line(rest),
        _ => text_line(line),
    }
}

// `file NAME` and `file NAME like OTHER`.
fn file_line(rest: &str) -> Option<Line<'_>> {
    match rest.split_once(" like ") {
        Some((name, other)) => Some(Line::Like { name, other }),
        None => Some(Line::File { name: rest }),
    }
}

// `line K` and `lines K L`.
fn place_line(rest: &str) -> Option<Line<'_>> {
    let (first, last) = rest.split_once(' ').unwrap_or((rest, rest));
    Some(Line::Replace {
        first: first.parse::<usize>().ok()?,
        last: last.parse::<usize>().ok()?,
    })
}

// `each N from F`.
fn each_line(rest: &str) -> Option<Line<'_>> {
    let (count, first) = rest.split_once(" from ")?;
    Some(Line::Each {
        count: count.parse::<u32>().ok()?,
        first: first.parse::<u32>().ok()?,
    })
}

// `failing reads N ..` and `failing writes N ..`.
fn failing_line(rest: &str) -> Option<Line<'_>> {
    match rest.split_once(' ')? {
        ("reads", numbers) => Some(Line::FailingReads { numbers }),
        ("writes", numbers) => Some(Line::FailingWrites { numbers }),
        _ => None,
    }
}

// `pieces R W`, and `pieces N` for both.
fn pieces_line(rest: &str) -> Option<Line<'_>> {
    let (reads, writes) = rest.split_once(' ').unwrap_or((rest, rest));
    Some(Line::Pieces {
        reads: reads.parse::<usize>().ok()?,
        writes: writes.parse::<usize>().ok()?,
    })
}

// `status N` with what is said of the text.
fn status_line(rest: &str) -> Option<Line<'_>> {
    let (code, text) = rest.split_once(' ').unwrap_or((rest, ""));
    let text = match text {
        "" => Wanted::Lines,
        "as before" => Wanted::Before,
        "unlike before" => Wanted::Unlike,
        _ => Wanted::Entries(entries_of(text)?),
    };
    Some(Line::Status {
        code: code.parse::<u8>().ok()?,
        text,
    })
}

// The number of `with E entries`.
fn entries_of(text: &str) -> Option<u32> {
    text.strip_prefix("with ")?
        .strip_suffix(" entries")?
        .parse::<u32>()
        .ok()
}

// `| TEXT`, `N | TEXT` and `N from F | TEXT`.
fn text_line(line: &str) -> Option<Line<'_>> {
    let (head, text) = line.split_once('|')?;
    let (times, first) = times_of(head)?;
    let text = if text.is_empty() {
        text
    } else {
        text.strip_prefix(' ')?
    };
    Some(Line::Text { text, times, first })
}

// How often a text line stands there, and the number that it is read at first.
fn times_of(head: &str) -> Option<(u32, u32)> {
    if head.is_empty() {
        return Some((1, 0));
    }
    let head = head.strip_suffix(' ')?;
    let (times, first) = head.split_once(" from ").unwrap_or((head, "0"));
    Some((times.parse::<u32>().ok()?, first.parse::<u32>().ok()?))
}
