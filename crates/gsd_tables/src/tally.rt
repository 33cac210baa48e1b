// What a table's answers come to: cases, answers and wrong ones, counted, and each that differs printed.
use std::io;

// Where a table is, and what is counted. idle: the case has asked nothing yet.
#[derive(Clone, Copy, Debug, PartialEq, Eq)]
pub struct Tally<'a> {
    pub path: &'a str,
    pub idle: bool,
    pub line: u64,
    pub cases: u64,
    pub answers: u64,
    pub wrong: u64,
}

impl<'a> Tally<'a> {
    // Before the first line.
    pub fn new(path: &'a str) -> Tally<'a> {
        Tally {
            path,
            idle: false,
            line: 0,
            cases: 0,
            answers: 0,
            wrong: 0,
        }
    }

    pub fn next_line(&mut self) {
        self.line = self.line.wrapping_add(1);
    }

    // Prints what a line answers, and counts it as wrong. Who prints is lent the runtime: if a tally kept it, the runtime's type would
    // stand wherever a tally does, also in the counts of all tables.
    pub fn differs(&mut self, rt: &impl Print, says: &[u8]) -> io::Result<()> {
        let path = self.path;
        let line = self.line;
        print!(rt; "{path}:{line}:")?;
        rt.write_all(says)?;
        rt.write_all(b"\n")?;
        self.wrong = self.wrong.wrapping_add(1);
        Ok(())
    }

    // A case that asks nothing shows nothing.
    fn close(&mut self, rt: &impl Print) -> io::Result<()> {
        if self.idle {
            self.differs(rt, b" the case before asks nothing")?;
        }
        Ok(())
    }

    // A case begins.
    pub fn begin(&mut self, rt: &impl Print) -> io::Result<()> {
        self.close(rt)?;
        self.idle = true;
        self.cases = self.cases.wrapping_add(1);
        Ok(())
    }

    // What is answered, and what is expected.
    pub fn compare(&mut self, rt: &impl Print, got: &[u8], expected: &[u8]) -> io::Result<()> {
        self.idle = false;
        self.answers = self.answers.wrapping_add(1);
        if got == expected {
            return Ok(());
        }
        self.differs(rt, got)
    }

    // The counts.
    pub fn print(&self, rt: &impl Print) -> io::Result<()> {
        let path = self.path;
        let cases = self.cases;
        let answers = self.answers;
        let wrong = self.wrong;
        println!(rt; "{path}: {cases} cases, {answers} answers, {wrong} wrong")
    }

    // The table's end.
    pub fn end(&mut self, rt: &impl Print) -> io::Result<()> {
        self.close(rt)?;
        self.print(rt)
    }

    // A table that cannot be read counts as a wrong answer.
    pub fn lose(&mut self) {
        self.wrong = self.wrong.wrapping_add(1);
    }

    // With another's counts.
    pub fn add(&mut self, other: Tally) {
        self.cases = self.cases.wrapping_add(other.cases);
        self.answers = self.answers.wrapping_add(other.answers);
        self.wrong = self.wrong.wrapping_add(other.wrong);
    }
}
