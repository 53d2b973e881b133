//! A row of the table: a name, a task and what it should give, with `|` between them.

#[derive(Clone, Copy, PartialEq, Eq, Debug)]
pub struct Row<'a> {
    pub name: &'a str,
    pub task: &'a str,
    pub expected: &'a str,
}

impl<'a> Row<'a> {
    /// The row of a line, if it is no comment and no empty line.
    pub fn parse(line: &'a str) -> Option<Row<'a>> {
        if line.starts_with('#') {
            return None;
        }
        let (name, rest) = line.split_once('|')?;
        match rest.split_once('|') {
            Some((task, expected)) => Some(Row {
                name: name.trim(),
                task: task.trim(),
                expected: expected.trim(),
            }),
            None => Some(Row {
                name: name.trim(),
                task: rest.trim(),
                expected: "",
            }),
        }
    }
}
