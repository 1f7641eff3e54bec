//! Where connections are made.
ghost use Rattle.std.specs.Prelude.{◌≡◌, ◌<◌, ◌≤◌, ◌+◌, ◌++◌, ◌∷◌, [], List};
ghost use Rattle.std.specs.Prelude.{ℕ, IfOk, OnOk, OnErr, IsErrOf};
ghost use Rattle.delta_base.specs.Memory.{CountsCall};
ghost use Rattle.delta_base.specs.Outside.{Rose};

use delta_base::{Link, Text};

/// Why no connection was made.
#[derive(Clone, Copy, Debug, PartialEq, Eq)]
pub enum DialFault {
    Failed,
    OutOfMemory,
}

/// Where connections are made, and where they end. What is said of them holds where
/// it `tells` them.
pub trait Dial {
    type L: Link;

    /// Whether it tells its connections.
    ghost tells: { Type 0 };

    /// The connections to come, in their order.
    ghost to_come: { Self → List Self.L };

    /// The addresses of the connections made, in their order.
    ghost addresses: { Self → List (List ℕ) };

    /// The connections hung up, in their order.
    ghost back: { Self → List Self.L };

    /// How many connections that it made aren't hung up yet.
    ghost held: { Self → ℕ };

    /// How often a connection was tried for, up to the last value of u64.
    ghost tries: { Self → ℕ };

    /// How often a call has failed, or a connection was hung up that had failed.
    ghost faults: { Self → ℕ };

    fn faults(&self) -> u64
        ensures { result ≡ faults self.now };

    /// Makes a connection to an address: the first of those to come. It has not failed yet.
    fn connect(&mut self, address: &Text) -> Result<Self::L, DialFault>
        ensures made { tells → IfOk result (λ link. to_come self.old ≡ link ∷ to_come self.new) }
        ensures address { tells
            → OnOk result (addresses self.new ≡ addresses self.old ++ address.now ∷ []) }
        ensures refused { tells → OnErr result (to_come self.new ≡ to_come self.old) }
        ensures nowhere { tells → OnErr result (addresses self.new ≡ addresses self.old) }
        ensures back { tells → back self.new ≡ back self.old }
        ensures fresh { IfOk result (λ link. Self.L.faults link ≡ 0) }
        ensures held { OnOk result (held self.new ≡ held self.old + 1) }
        ensures not_held { OnErr result (held self.new ≡ held self.old) }
        ensures tries { CountsCall (tries self.old) (tries self.new) }
        ensures never_falls { faults self.old ≤ faults self.new }
        ensures cause { IsErrOf result DialFault.Failed
            → Rose (faults self.old) (faults self.new) }

        // A call that fails counts one fault more, and another one counts none.
        ensures one { IsErrOf result DialFault.Failed
            → CountsCall (faults self.old) (faults self.new) }
        ensures well { OnOk result (faults self.new ≡ faults self.old) }
        ensures memory { IsErrOf result DialFault.OutOfMemory
            → faults self.new ≡ faults self.old };

    /// Ends a connection. One that has failed counts one fault.
    fn hang_up(&mut self, link: Self::L)
        requires { 0 < held self.old }
        ensures held { held self.new + 1 ≡ held self.old }
        ensures back { tells → back self.new ≡ back self.old ++ link ∷ [] }
        ensures to_come { tells → to_come self.new ≡ to_come self.old }
        ensures addresses { tells → addresses self.new ≡ addresses self.old }
        ensures tries { tries self.new ≡ tries self.old }
        ensures never_falls { faults self.old ≤ faults self.new }
        ensures rises { 0 < Self.L.faults link → Rose (faults self.old) (faults self.new) }
        ensures one { 0 < Self.L.faults link → CountsCall (faults self.old) (faults self.new) }
        ensures stays { Self.L.faults link ≡ 0 → faults self.new ≡ faults self.old };
}
