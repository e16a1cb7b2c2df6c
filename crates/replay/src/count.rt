// What is counted: of the call at hand, and of all.
use crate::judge::{Judged, Verdict};

// Cases, those that disagree; lines that are wrong on purpose, those that were found out.
#[derive(Clone, Copy, Debug, Default, PartialEq, Eq)]
pub struct Counts {
    pub cases: u64,
    pub disagreements: u64,
    pub wrong: u64,
    pub found: u64,
}

impl Counts {
    // Enters a line. One that can't be read is a case that disagrees, whatever its mark.
    fn enter(&mut self, judged: Judged) {
        let differs = u64::from(judged.verdict != Verdict::Agrees);
        if judged.is_case() || !judged.is_read() {
            self.cases = self.cases.saturating_add(1);
            self.disagreements = self.disagreements.saturating_add(differs);
        } else {
            self.wrong = self.wrong.saturating_add(1);
            self.found = self.found.saturating_add(differs);
        }
    }
}

// The name of the call at hand, its counts, and those of all.
#[derive(Clone, Copy, Debug, PartialEq, Eq)]
pub struct Book<'a> {
    pub name: &'a [u8],
    pub chapter: Counts,
    pub total: Counts,
}

impl<'a> Book<'a> {
    pub fn new(name: &'a [u8]) -> Book<'a> {
        Book {
            name,
            chapter: Counts::default(),
            total: Counts::default(),
        }
    }

    // Turns to the chapter of a call.
    pub fn turn(&mut self, name: &'a [u8]) {
        self.name = name;
        self.chapter = Counts::default();
    }

    // Enters a line.
    pub fn enter(&mut self, judged: Judged) {
        self.chapter.enter(judged);
        self.total.enter(judged);
    }
}
