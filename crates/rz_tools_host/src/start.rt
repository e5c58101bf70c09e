//! What a run is given, or why no run begins, as `specs/Given` says.

ghost use Rattle.std.specs.Prelude.{◌≡◌, IfErr, IfOk, IfSome, map};
ghost use Rattle.std.specs.String.{string_bytes};
ghost use Rattle.rz_tools_host.specs.Clock.{IsMomentAt};
ghost use Rattle.rz_tools_host.specs.Given.{words_of, BeginsWith, HasNoMoment, HasNoWords, Hinders, IsMomentOf};
ghost use Rattle.rz_tools_host.specs.Process.{AreTexts};

use crate::epoch::moment_told;
use crate::hindrance::Hindrance;
use crate::host::{Host, NotText};
use rz_core::{Moment, Stop};
use std::alloc::Global;

/// What a run starts with.
#[derive(Drop)]
pub struct Start {
    /// Its words: the arguments of the process after the program's name.
    pub words: Vec<String>,
    /// Its moment.
    pub moment: Moment,
}

/// What the host gives to a run: the words after the program's name, and the moment, which is the one that
/// `SOURCE_DATE_EPOCH` tells, if the environment has it, and else the clock's. NoArguments comes if an argument
/// isn't UTF-8, NoMoment if the value of `SOURCE_DATE_EPOCH` tells no moment, and NoMemory if there is no memory for
/// what the host gives.
pub fn given<H: Host>(alloc: Global, host: &H) -> Result<Start, Hindrance>
    ensures begins { IfOk result (λ start. IfSome (H.process host.now) (λ process. BeginsWith process (map string_bytes start.words.items) start.moment)) }
    ensures hindered { IfErr result (λ hindrance. IfSome (H.process host.now) (λ process. Hinders process hindrance)) }
{
    let words = words_of(alloc, host)?;
    let moment = moment_of(alloc, host)?;
    Ok(Start { words, moment })
}

/// The arguments of the process after the program's name.
fn words_of<H: Host>(alloc: Global, host: &H) -> Result<Vec<String>, Hindrance>
    ensures words { IfOk result (λ words. IfSome (H.process host.now) (λ process. AreTexts process.args × (map string_bytes words.items ≡ words_of process.args))) }
    ensures none { IfErr result (λ hindrance. IfSome (H.process host.now) (λ process. HasNoWords process hindrance)) }
{
    match host.args(alloc) {
        Ok(mut args) => {
            if !args.is_empty() {
                drop(args.remove(0));
            }
            Ok(args)
        }
        Err(Stop::Refused(NotText)) => Err(Hindrance::NoArguments),
        Err(Stop::NoMemory) => Err(Hindrance::NoMemory),
    }
}

/// The moment of the run: the one that `SOURCE_DATE_EPOCH` tells, if the environment has it, and else the clock's.
pub fn moment_of<H: Host>(alloc: Global, host: &H) -> Result<Moment, Hindrance>
    ensures moment { IfOk result (λ moment. IfSome (H.process host.now) (λ process. IsMomentOf process moment)) }
    ensures none { IfErr result (λ hindrance. IfSome (H.process host.now) (λ process. HasNoMoment process hindrance)) }
{
    match host.variable(alloc, "SOURCE_DATE_EPOCH") {
        Ok(Some(text)) => moment_told(&text).ok_or(Hindrance::NoMoment),
        Ok(None) => Ok(moment_at(host.clock())),
        Err(Stop::Refused(NotText)) => Err(Hindrance::NoMoment),
        Err(Stop::NoMemory) => Err(Hindrance::NoMemory),
    }
}

/// The moment so many seconds after the first second of 1970. One that is outside the range of moments, or can't be
/// told, is taken as the first second of 1904.
pub fn moment_at(seconds: Option<i64>) -> Moment
    ensures { IsMomentAt seconds result }
{
    match seconds.and_then(Moment::of_unix) {
        Some(moment) => moment,
        None => Moment::of_unix(Moment::FIRST).unwrap(),
    }
}
