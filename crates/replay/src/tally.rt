// What is counted. A count that cannot grow stays.
use crate::functions::{COUNT, Function};
use crate::lines::{Became, Decider};

#[derive(Clone, Copy)]
pub struct Tally {
    // Entries that agree, for each function and for all.
    each: [u64; COUNT],
    pub agree: u64,
    // Those of them where the Rust panics, and where it answers otherwise.
    pub panics: u64,
    pub otherwise: u64,
    // Entries that differ, lines that cannot be read, and files.
    pub differ: u64,
    pub unread: u64,
    pub unread_files: u64,
}

impl Tally {
    pub fn new() -> Tally {
        Tally {
            each: [0; COUNT],
            agree: 0,
            panics: 0,
            otherwise: 0,
            differ: 0,
            unread: 0,
            unread_files: 0,
        }
    }

    // How many entries of a function agree.
    pub fn of(&self, function: Function) -> u64 {
        self.each[function as usize]
    }

    // Whether everything was read and agrees.
    pub fn is_whole(&self) -> bool {
        self.differ == 0 && self.unread == 0 && self.unread_files == 0
    }

    // Counts what became of a line.
    pub fn count(&mut self, became: Became) {
        match became {
            Became::Passed => {}
            Became::Agrees(function, decider) => self.count_agreement(function, decider),
            Became::Differs => self.differ = self.differ.saturating_add(1),
            Became::Unread => self.unread = self.unread.saturating_add(1),
        }
    }

    pub fn count_unread_file(&mut self) {
        self.unread_files = self.unread_files.saturating_add(1);
    }

    fn count_agreement(&mut self, function: Function, decider: Decider) {
        let each = self.each[function as usize];
        self.each[function as usize] = each.saturating_add(1);
        self.agree = self.agree.saturating_add(1);
        match decider {
            Decider::Rust => {}
            Decider::Panics => self.panics = self.panics.saturating_add(1),
            Decider::Differs => self.otherwise = self.otherwise.saturating_add(1),
        }
    }
}
