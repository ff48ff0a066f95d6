// What a row tries, the line, and what the line is to be shown as.
#[derive(Clone, Copy)]
pub struct Row<'a> {
    pub about: &'a str,
    pub line: &'a str,
    pub shown: &'a str,
}

impl<'a> Row<'a> {
    pub fn read(text: &'a str) -> Option<Row<'a>> {
        let (about, rest) = text.split_once(" | ")?;
        let (line, shown) = rest.split_once(" | ")?;
        Some(Row { about, line, shown })
    }
}
