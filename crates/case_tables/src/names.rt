ghost use Rattle.std.specs.Prelude.{◌≡◌, length};
ghost use Rattle.case_tables.specs.Tables.{first_named, texts};

use std::marker::Model;

/// A list of `N` names in a static array, seen as their bytes.
#[derive(Drop)]
pub struct NameTable<const N: usize> {
    names: &'static [&'static str],
}

impl<const N: usize> Model for NameTable<N> {
    ghost use Rattle.std.specs.Prelude.{ℕ, List};
    ghost use Rattle.case_tables.specs.Tables.{texts};

    ghost Value = { List (List ℕ) };

    ghost view = { λ t. texts t.names.now };
}

impl<const N: usize> NameTable<N> {
    /// The table of these names.
    pub fn new(names: &'static [&'static str]) -> NameTable<N>
        requires { length names.now ≡ N }
        ensures { result ≡ texts names.now }
    {
        NameTable { names }
    }

    /// The place of the first row with that name.
    pub fn find(&self, name: &[u8]) -> Option<usize>
        ensures { result ≡ first_named name.now self.now }
    {
        for (at, row) in self.names.iter().enumerate() {
            if row.as_bytes() == name {
                return Some(at);
            }
        }
        None
    }
}

/// The value beside the first name that is the word, or the last value where no name is: at most 32
/// rows, of which the names stand in a `NameTable` of that many names and the values are the arms
/// of a choice by its places.
#[macro_export]
macro_rules! case_rows {
    ($count:literal, $word:expr; $($rows:tt)+) => {
        $crate::case_rows!(@row $count ($word) [] []
            (0 1 2 3 4 5 6 7 8 9 10 11 12 13 14 15 16 17 18 19 20 21 22 23 24 25 26 27 28 29 30 31)
            $($rows)+)
    };
    (@row $count:literal ($word:expr) [$($names:literal)*] [$($arms:tt)*]
        ($place:literal $($places:literal)*)
        $name:literal => $value:expr, $($rows:tt)+) => {
        $crate::case_rows!(@row $count ($word) [$($names)* $name]
            [$($arms)* Some($place) => $value,] ($($places)*) $($rows)+)
    };
    (@row $count:literal ($word:expr) [$($names:literal)*] [$($arms:tt)*] ($($places:literal)*)
        _ => $other:expr $(,)?) => {
        match $crate::NameTable::<$count>::new(&[$($names),*]).find($word) {
            $($arms)*
            Some(_) => $other,
            None => $other,
        }
    };
}
