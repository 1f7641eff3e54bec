//! Where connections come from.
ghost use Rattle.std.specs.Prelude.{◌≡◌, ◌⊎◌, ◌≤◌, ◌++◌, ◌∷◌, [], List, ℕ, IfSome, IfNone};
ghost use Rattle.delta_base.specs.Outside.{Rose};
ghost use Rattle.worker_pool.specs.declared.gate.Arrival.{Arrival};

/// A connection that came, with dice for whoever serves it: a number from which ids are made.
#[derive(Debug, Drop)]
pub struct Arrival<L> {
    pub link: L,
    pub dice: u128,
}

/// Where connections come from, and where they are put back. What is said of them holds where
/// it `tells` them.
pub trait Gate {
    type L;

    /// Whether it tells its connections.
    ghost tells: { Type 0 };

    /// The arrivals left.
    ghost arrivals: { Self → List (Arrival Self.L) };

    /// The links put back, in their order.
    ghost back: { Self → List Self.L };

    /// A link that it gave isn't back yet.
    ghost awaits: { Self → Type 0 };

    /// How often something has failed, which never falls.
    ghost faults: { Self → ℕ };

    fn faults(&self) -> u64
        ensures { result ≡ faults self.now };

    /// Takes the first of the arrivals left. There is none where the gate is closed or fails.
    fn next(&mut self) -> Option<Arrival<Self::L>>
        ensures some { tells → IfSome result (λ a. arrivals self.old ≡ a ∷ arrivals self.new) }
        ensures awaits { IfSome result (λ _. awaits self.new) }
        ensures none { tells → IfNone result (arrivals self.new ≡ arrivals self.old) }
        ensures cause { IfNone result
            ((tells × (arrivals self.new ≡ [])) ⊎ Rose (faults self.old) (faults self.new)) }
        ensures back { tells → back self.new ≡ back self.old }
        ensures never_falls { faults self.old ≤ faults self.new };

    /// Puts a link back behind the others.
    fn put_back(&mut self, link: Self::L)
        requires { awaits self.old }
        ensures back { tells → back self.new ≡ back self.old ++ link ∷ [] }
        ensures arrivals { tells → arrivals self.new ≡ arrivals self.old }
        ensures faults { faults self.new ≡ faults self.old };
}
