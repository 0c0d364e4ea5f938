//! What a command line asks for.

use pesp_problem::Share;

/// What the words of a command line ask for. The period is in the unit of the instance's durations.
#[derive(Drop)]
pub struct Request<'a> {
    pub period: u32,
    pub asked: Asked<'a>,
}

/// What is asked, and of what.
#[derive(Drop)]
pub enum Asked<'a> {
    /// Something of an instance alone; it is on standard input where no file is named.
    Instance {
        file: Option<&'a str>,
        asked: OfInstance<'a>,
    },
    /// Something of the certificate on standard input; the file has its instance.
    Certificate {
        file: &'a str,
        asked: OfCertificate,
    },
    /// Work on open leaves of the certificate on standard input; the file has its instance.
    Leaves {
        file: &'a str,
        asked: OfLeaves,
    },
    /// Something of the times on standard input; the file has their instance.
    Times {
        file: &'a str,
        asked: OfTimes<'a>,
    },
    /// Something of the works on standard input, which belong to the certificate in the file `base`; the other file has the
    /// instance.
    Works {
        file: &'a str,
        base: &'a str,
        asked: OfWorks,
    },
}

/// What is asked of an instance.
#[derive(Clone, Copy, Drop)]
pub enum OfInstance<'a> {
    /// A search of at most so many steps.
    Solve {
        steps: u32,
        /// The file with the times from which it begins, where there are some.
        from: Option<&'a str>,
        /// Whether it is told on standard error how far the search is.
        progress: bool,
    },
    /// The same with leaves that marked walks sharpen.
    SolveSharp {
        steps: u32,
        /// The file with the times from which it begins, where there are some.
        from: Option<&'a str>,
        /// Whether it is told on standard error how far the search is.
        progress: bool,
    },
    /// The best timetable and bound that are found within some seconds.
    Plan(Planning<'a>),
    /// Activities that have no timetable together, within searches of at most so many steps.
    Conflict {
        steps: u32,
        /// The file with the names of events, where one is named.
        names: Option<&'a str>,
    },
}

/// How a plan is made.
#[derive(Clone, Copy, Drop)]
pub struct Planning<'a> {
    /// For about how many seconds.
    pub seconds: u32,
    /// The file in which what is found stands at every moment; standard output at the end where none is named.
    pub output: Option<&'a str>,
    /// The file with the times from which it begins, where there are some.
    pub from: Option<&'a str>,
    /// Whether nothing is told on standard error of how far it is.
    pub quiet: bool,
    /// What the file with the instance is called, where it is one.
    pub instance: Option<&'a str>,
}

/// What is asked of a certificate.
#[derive(Clone, Copy, Drop)]
pub enum OfCertificate {
    /// A verdict on it.
    Check,
    /// A verdict on it, where it may have a front of marked walks.
    CheckSharp,
    /// How good its answer is.
    Gap,
    /// The same as JSON.
    GapJson,
    /// A search of at most so many steps that goes on from it, for about so many seconds at most.
    Resume {
        steps: u32,
        seconds: Option<u32>,
        /// Whether it is told on standard error how far the search is.
        progress: bool,
    },
    /// The same with leaves that marked walks sharpen; or of a share of the regions alone, where one is named.
    ResumeSharp {
        steps: u32,
        seconds: Option<u32>,
        /// Whether it is told on standard error how far the search is.
        progress: bool,
        share: Option<Share>,
    },
    /// Its open leaves, as jobs.
    Split,
    /// The same, where it may have a front of marked walks.
    SplitSharp,
}

/// What is asked of open leaves of a certificate.
#[derive(Drop)]
pub enum OfLeaves {
    /// Work of at most so many steps.
    Work {
        steps: u32,
        /// From which value on no leaf is split, where one is named.
        until: Option<u64>,
        /// The numbers of the leaves, which rise.
        jobs: Vec<u64>,
    },
    /// The same with leaves that marked walks sharpen.
    WorkSharp {
        steps: u32,
        /// From which value on no leaf is split, where one is named.
        until: Option<u64>,
        /// The numbers of the leaves, which rise.
        jobs: Vec<u64>,
    },
}

/// What is asked of works.
#[derive(Clone, Copy, Drop)]
pub enum OfWorks {
    /// To be grafted onto their base.
    Graft,
    /// The same with leaves that marked walks sharpen; works are whole certificates.
    GraftSharp,
}

/// What is asked of times. Names are those of a file.
#[derive(Clone, Copy, Drop)]
pub enum OfTimes<'a> {
    /// Their report, with names where a file is named.
    Report {
        names: Option<&'a str>,
    },
    /// The activities that they violate, with names where a file is named.
    Violations {
        names: Option<&'a str>,
    },
    /// A picture of them, with at most so many activities and so many events, and with names where a file is named.
    Picture {
        rows: u32,
        names: Option<&'a str>,
    },
    /// Time-distance diagrams of them, for the lines that a file with names tells, or along stations between commas.
    Diagrams {
        names: &'a str,
        along: Option<&'a str>,
    },
    /// Their timetable, with names where a file is named, as records or as JSON.
    Timetable {
        names: Option<&'a str>,
        json: bool,
    },
    /// Their instance with events fixed: those of the words between commas, and those of the lines between commas that a file
    /// with names tells, at their times where no others are named.
    Fix {
        names: Option<&'a str>,
        events: &'a str,
        lines: &'a str,
    },
    /// A page of them, with names where a file is named.
    Page {
        names: Option<&'a str>,
    },
}

impl Request<'_> {
    /// Whether something is read from standard input.
    pub fn reads_input(&self) -> bool {
        !matches!(self.asked, Asked::Instance { file: Some(_), .. })
    }

    /// The period for which times are taken, where times are read.
    pub fn period_of_times(&self) -> Option<u32> {
        match self.asked {
            Asked::Times { .. } => Some(self.period),
            _ => None,
        }
    }
}
