//! Which calls a server takes.
ghost use Rattle.std.specs.Prelude.{◌≡◌};
ghost use Rattle.rpc_calls.specs.Surfaces.{has_operation, takes_appends};

/// The server that is asked: a hall takes every call, a mirror only those that read its log.
#[derive(Clone, Copy, Debug, PartialEq, Eq)]
pub enum Surface {
    Hall,
    Mirror,
}

impl Surface {
    /// Whether it takes appends.
    pub fn takes_appends(self) -> bool
        ensures { result ≡ takes_appends self }
    {
        match self {
            Surface::Hall => true,
            Surface::Mirror => false,
        }
    }

    /// Whether it has the operation of that name, where there is one.
    pub fn has_operation(self, word: &str) -> bool
        ensures { result ≡ has_operation self word.now }
    {
        match self {
            Surface::Hall => true,
            Surface::Mirror => {
                word == "ping"
                    || word == "log"
                    || word == "version"
                    || word == "fetch_version"
                    || word == "fetch_id"
            }
        }
    }
}
