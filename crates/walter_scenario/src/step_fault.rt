//! What is wrong with a step, and the words that say so.
use thiserror::Error;

/// The form of a step: its text shows which values such a step has, and in which order.
#[derive(Clone, Copy, Debug, PartialEq, Eq, Error)]
pub enum StepForm {
    #[error("[\"call\", client]")]
    Call,
    #[error("[\"deliver\", site, from, number]")]
    Deliver,
    #[error("[\"advance\", site, from]")]
    Advance,
    #[error("[\"tick\", site]")]
    Tick,
    #[error("[\"upgrade\", site]")]
    Upgrade,
    #[error("[\"stop\", site]")]
    Stop,
    #[error("[\"restart\", site]")]
    Restart,
    #[error("[\"pump\", site]")]
    Pump,
    #[error("[\"arm\", site, nth, choice]")]
    Arm,
}

/// What is wrong with a step: which part of it, and what is wanted there. Parts are tried in this order, and the first
/// that is wrong is named.
#[derive(Clone, Copy, Debug, PartialEq, Eq, Error)]
pub enum StepFault {
    /// There is no step, since the value of `steps` is no list.
    #[error("the value of steps: wants a list")]
    NoSteps,
    /// The step is no list.
    #[error("its value: wants a list")]
    NoList,
    /// The first value is no word of a step, or isn't there.
    #[error("its word: wants \"call\", \"deliver\", \"advance\", \"tick\", \"upgrade\", \"stop\", \
        \"restart\", \"pump\" or \"arm\"")]
    Word,
    /// A step of this word has more values, or fewer.
    #[error("its length: wants just {form}")]
    Length { form: StepForm },
    #[error("its client: wants a whole number below {clients}, the number of clients")]
    Client { clients: usize },
    #[error("its site: wants a whole number below {sites}, the number of sites")]
    Site { sites: u8 },
    #[error("its from: wants a whole number below {sites}, the number of sites")]
    From { sites: u8 },
    /// The sites of the step are one and the same.
    #[error("its from: wants another one than its site")]
    Same,
    #[error("its number: wants a whole number from 1 to 4294967295")]
    Number,
    #[error("its nth: wants a whole number from 1 to 1000000")]
    Nth,
    #[error("its choice: wants a whole number below 2^64")]
    Choice,
}
