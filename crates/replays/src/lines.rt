// A line of a file of cases: a letter, and numbers right-justified in 10 columns.
use anyhow::Context;

// A line with its line feed, and its number from 1.
#[derive(Clone, Copy)]
pub(crate) struct Line<'a> {
    pub(crate) number: usize,
    pub(crate) text: &'a [u8],
}

impl Line<'_> {
    pub(crate) fn letter(&self) -> u8 {
        self.text.first().copied().unwrap_or(b'\n')
    }

    // The number in the columns of field k, from 0.
    pub(crate) fn field(&self, k: usize) -> anyhow::Result<u64> {
        let start = k.saturating_mul(10).saturating_add(1);
        let columns = self
            .text
            .get(start..start.saturating_add(10))
            .context("a line of a case is too short")?;
        Ok(std::str::from_utf8(columns)?.trim_start().parse::<u64>()?)
    }
}
