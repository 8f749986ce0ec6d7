//! Words that are nearly the same.

/// The most letters that nearly the same words differ in.
const MOST: usize = 2;

// How many bytes two words begin with alike.
fn common_start(left: &[u8], right: &[u8]) -> usize {
    let mut count = 0usize;
    for (a, b) in left.iter().zip(right) {
        if !a.eq_ignore_ascii_case(b) {
            break;
        }
        count = count.saturating_add(1);
    }
    count
}

// How many bytes two words end with alike, behind those.
fn common_end(left: &[u8], right: &[u8], start: usize) -> usize {
    let most = left.len().min(right.len()).saturating_sub(start);
    let mut count = 0usize;
    for (a, b) in left.iter().rev().zip(right.iter().rev()) {
        if count == most || !a.eq_ignore_ascii_case(b) {
            break;
        }
        count = count.saturating_add(1);
    }
    count
}

/// How many letters in a row two words differ in, where it is few of many: of a word of four letters two at most.
pub fn difference(left: &[u8], right: &[u8]) -> Option<usize> {
    let start = common_start(left, right);
    let same = start.saturating_add(common_end(left, right, start));
    let longer = left.len().max(right.len());
    let other = longer.saturating_sub(same);
    if other <= MOST && other < same {
        Some(other)
    } else {
        None
    }
}

/// The word that is nearest to another, of those that were offered so far.
#[derive(Clone, Copy)]
pub struct Nearest<'a> {
    word: &'a [u8],
    best: Option<&'a [u8]>,
    by: usize,
}

impl<'a> Nearest<'a> {
    /// Nothing was offered yet.
    pub fn to(word: &'a [u8]) -> Nearest<'a> {
        Nearest {
            word,
            best: None,
            by: MOST + 1,
        }
    }

    /// Offers a word.
    pub fn offer(&mut self, word: &'a [u8]) {
        if let Some(by) = difference(self.word, word) {
            if by < self.by {
                self.best = Some(word);
                self.by = by;
            }
        }
    }

    /// The nearest word, if one is near.
    pub fn best(&self) -> Option<&'a [u8]> {
        self.best
    }
}
