//! The rows of refusals.
ghost use Rattle.std.specs.Prelude.{◌≡◌, IfErr};
ghost use Rattle.http_front.specs.Rows.{IsTellable, answer_row, fault_row, head_row};

use crate::fault::Fault;
use endpoint_router::Answer;
use push_headers::HeadFault;
use push_model::MsgId;

/// How a refusal is told: its status code, and the number of what is wrong.
#[derive(Clone, Copy, Debug, PartialEq, Eq)]
pub struct Refusal {
    /// The status code (RFC 9110, section 15).
    pub code: u16,
    /// The number of what is wrong.
    pub errno: u16,
}

fn refusal_row(code: u16, errno: u16) -> Refusal
    ensures { result ≡ record { code = code; errno = errno } }
{
    Refusal { code, errno }
}

fn head_row(fault: HeadFault) -> Refusal
    ensures { result ≡ head_row fault }
{
    match fault {
        HeadFault::MissingTtl => refusal_row(400, 111),
        HeadFault::BadTtl => refusal_row(400, 112),
        HeadFault::BadTopic => refusal_row(400, 113),
        HeadFault::BadUrgency => refusal_row(400, 114),
        HeadFault::BadEncoding => refusal_row(400, 110),
    }
}

fn fault_row(fault: Fault) -> Refusal
    ensures { result ≡ fault_row fault }
{
    match fault {
        Fault::UnknownPath => refusal_row(404, 101),
        Fault::WrongMethod => refusal_row(405, 105),
        Fault::LongBody => refusal_row(413, 104),
        Fault::Head(fault) => head_row(fault),
        Fault::BadToken => refusal_row(404, 102),
    }
}

fn answer_row(answer: Answer) -> Result<(MsgId, u32), Refusal>
    ensures { result ≡ answer_row answer }
{
    match answer {
        Answer::Created(id, ttl) => Ok((id, ttl)),
        Answer::Gone => Err(refusal_row(410, 103)),
        Answer::Full => Err(refusal_row(503, 202)),
        Answer::IdsSpent => Err(refusal_row(503, 203)),
    }
}

impl Refusal {
    /// How a fault of a request is told.
    pub fn of_fault(fault: Fault) -> Refusal
        ensures value { result ≡ fault_row fault }
        ensures tellable { IsTellable result }
    {
        fault_row(fault)
    }

    /// The message that a route took, and the seconds for which it is kept; or how its answer is told.
    pub fn of_answer(answer: Answer) -> Result<(MsgId, u32), Refusal>
        ensures value { result ≡ answer_row answer }
        ensures tellable { IfErr result IsTellable }
    {
        answer_row(answer)
    }
}
