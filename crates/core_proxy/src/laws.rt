//! Laws of the core's steps: what a change of the core has to keep so that each log that led to it goes on. Each is a function without
//! a body, whose contract is the law.

ghost use Rattle.core_proxy.specs.CallsStay.{CallsStay};
ghost use Rattle.core_proxy.specs.Ending.{EndingIsAStep, DroppingIsAStep, FreeingIsAStep};
ghost use Rattle.core_proxy.specs.Steps.{PassingIsAStep, BeginningIsAStep, SendingIsAStep, SettlingIsAStep, ShowingIsAStep};

/// A message that asks no server is passed: a step of the core.
pub fn passing_is_a_step()
    ensures { PassingIsAStep }
{}

/// A command of a client begins where no command on its key is under way.
pub fn beginning_is_a_step()
    ensures { BeginningIsAStep }
{}

/// The next call of a command goes out where none of it is out.
pub fn sending_is_a_step()
    ensures { SendingIsAStep }
{}

/// A call that is out has its result: it may come as soon as it agrees with what its server holds.
pub fn settling_is_a_step()
    ensures { SettlingIsAStep }
{}

/// The reply at the head of a client's commands is shown, and no other.
pub fn showing_is_a_step()
    ensures { ShowingIsAStep }
{}

/// A command whose job is done has its reply.
pub fn ending_is_a_step()
    ensures { EndingIsAStep }
{}

/// Nothing is done for a client any more.
pub fn dropping_is_a_step()
    ensures { DroppingIsAStep }
{}

/// A command of a client for whom nothing is done any more is broken off where no call of it is out.
pub fn freeing_is_a_step()
    ensures { FreeingIsAStep }
{}

/// A call that is out stays until it is settled, and asks what it asked: until then no other of its number is given out, whatever else is
/// done.
pub fn calls_stay()
    ensures { CallsStay }
{}
