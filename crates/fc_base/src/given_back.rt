//! What a refused insertion hands back, as the error alone: so `?` serves a caller that has no use for the rest.
ghost use Rattle.std.specs.Prelude.{◌≡◌};

use crate::try_reserve_error::TryReserveError;

/// Why an insertion of a pair was refused. The key and the value that it handed back are dropped.
impl<K: Drop, V: Drop> From<(K, V, TryReserveError)> for TryReserveError {
    ghost from_gives = { λ back e. e ≡ back.2 };

    fn from(back: (K, V, TryReserveError)) -> TryReserveError {
        back.2
    }
}

/// Why an insertion of two pairs was refused. The keys and the values that it handed back are dropped.
impl<K: Drop, V: Drop, L: Drop, W: Drop> From<(K, V, L, W, TryReserveError)> for TryReserveError {
    ghost from_gives = { λ back e. e ≡ back.4 };

    fn from(back: (K, V, L, W, TryReserveError)) -> TryReserveError {
        back.4
    }
}

/// Why an insertion of an item was refused. The item that it handed back is dropped.
impl<T: Drop> From<(T, TryReserveError)> for TryReserveError {
    ghost from_gives = { λ back e. e ≡ back.1 };

    fn from(back: (T, TryReserveError)) -> TryReserveError {
        back.1
    }
}
