// What is printed of a report.
use answers::Fault;
use batch::{Refusal, Reported};
use std::fmt;

// A report: the fault of a refusal, and what is reported as numbers. Reports with the same of both are the same.
#[derive(Clone, Copy, PartialEq)]
pub struct Shown {
    refused: Option<Fault>,
    reported: Option<[u64; batch::VALUES]>,
}

impl From<Result<Reported, Refusal>> for Shown {
    fn from(report: Result<Reported, Refusal>) -> Shown {
        let (refused, reported) = match report {
            Ok(reported) => (None, Some(reported)),
            Err(Refusal::Short(fault, reported)) => (Some(fault), Some(reported)),
            Err(Refusal::Broken(fault)) => (Some(fault), None),
        };
        Shown {
            refused,
            reported: reported.map(|reported| batch_code::values_of(reported)),
        }
    }
}

impl fmt::Display for Shown {
    fn fmt<W: fmt::Write>(&self, f: &mut fmt::Formatter<W>) -> fmt::Result {
        match self.refused {
            None => write!(f, "accept")?,
            Some(fault) => write!(f, "refuse {} {}", fault.number, fault.place)?,
        }
        for value in self.reported.iter().flatten() {
            write!(f, " {value}")?;
        }
        Ok(())
    }
}
