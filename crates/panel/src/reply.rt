// What an exported call replies.
ghost use Rattle.std.specs.Prelude.{◌≡◌};
ghost use Rattle.panel.specs.Replies.{accepting, refusing, reply_to, reply_of};

use printing::Report;
use stations::Fault;

// C has no Result: the code is 0 where nothing is refused, and else the refusal's number, with its two places. The length is of what was written or counted.
#[repr(C)]
#[derive(Clone, Copy, PartialEq, Eq)]
pub struct Reply {
    pub code: u32,
    pub first: u32,
    pub second: u32,
    pub length: usize,
}

impl Reply {
    fn accepting(length: usize) -> Reply
        ensures { result ≡ accepting length }
    {
        Reply {
            code: 0,
            first: 0,
            second: 0,
            length,
        }
    }

    fn refusing(fault: Fault, length: usize) -> Reply
        ensures { result ≡ refusing fault length }
    {
        Reply {
            code: fault.code.number() as u32,
            first: fault.first,
            second: fault.second,
            length,
        }
    }
}

// To a call that counts or writes.
impl From<Result<usize, Fault>> for Reply {
    ghost from_gives = { λ answer reply. reply ≡ reply_to answer };

    fn from(answer: Result<usize, Fault>) -> Reply {
        match answer {
            Ok(length) => Reply::accepting(length),
            Err(fault) => Reply::refusing(fault, 0),
        }
    }
}

// To a call that prints.
impl From<Result<Report, Fault>> for Reply {
    ghost from_gives = { λ answer reply. reply ≡ reply_of answer };

    fn from(answer: Result<Report, Fault>) -> Reply {
        match answer {
            Ok(Report { len, refusal }) => match refusal {
                Some(fault) => Reply::refusing(fault, len),
                None => Reply::accepting(len),
            },
            Err(short) => Reply::refusing(short, 0),
        }
    }
}
