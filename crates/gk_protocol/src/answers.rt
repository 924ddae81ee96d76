//! Answers to lines.

use crate::report_texts::ReportText;
use crate::request_faults::RequestFault;
use admission::Reply as CoreReply;
use gk_commands::LineFault;

/// Why there is no trial.
#[derive(Clone, Copy, Debug, PartialEq, Eq)]
pub enum TrialRefusal {
    /// The count of workers is not 1 to 64.
    BadWorkers,
    /// The first fault of the lines, and not that memory ran out. The first of them has the number
    /// 1.
    Misconfigured(LineFault),
    /// A worker's thread could not be started.
    NoThread,
    /// Memory ran out.
    NoMemory,
}

/// What is answered to a line. It is written as one line of words, of which the second, but for
/// `ERR`, is the request's sequence number; the lines of a report come after that of `TCF`.
#[derive(Drop)]
pub enum Answer {
    /// The reply of a core to a request.
    Reply {
        /// The sequence number of the request, 1 to 65535.
        sequence: u32,
        /// What is replied.
        reply: CoreReply,
    },
    /// `CRJ` with the fault of a line, of this project: the lines of a reload are not a
    /// configuration, and the one in force stays.
    Misconfigured {
        /// The sequence number of the request, 1 to 65535.
        sequence: u32,
        /// The first fault of the lines, and not that memory ran out. The first of them has the
        /// number 1.
        fault: LineFault,
    },
    /// `TCF`, how many lines the report of a trial has, and these lines, of this project.
    Tried {
        /// The sequence number of the request, 1 to 65535.
        sequence: u32,
        /// The report.
        report: ReportText,
    },
    /// `TRJ`, of this project: there is no trial, and nothing has changed.
    TryRefused {
        /// The sequence number of the request, 1 to 65535.
        sequence: u32,
        /// Why there is none.
        reason: TrialRefusal,
    },
    /// `ERR` and the word of the fault, of this project: the line is not a request, or the input
    /// ended before the lines that belong to it.
    Malformed(RequestFault),
}
