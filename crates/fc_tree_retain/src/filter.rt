//! What is asked of each pair, and what becomes of those that do not stay.
ghost use Rattle.std.specs.Prelude.{◌≡◌, ◌+◌, ◌^◌, ◌<◌, Bool, false, not, ⊤};
ghost use Rattle.fc_tree_retain.specs.Retained.{AskedAtKey, AskedAtPair, GivenKey, GivenPair};

// Asked of one pair after another.
pub(crate) trait Filter<K, V> {
    // It may be called at each pair, and so after each call.
    ghost callable: { Self → Type 0 };

    // Asked at the pair it may become this one, leave this value there, and answer so.
    ghost asked: { Self → K × V → Self → V → Bool → Type 0 };

    // Given the pair it may become this one.
    ghost given: { Self → K × V → Self → Type 0 };

    // Whether the pair is to stay.
    fn stays(&mut self, key: &K, value: &mut V) -> bool
        requires { callable self.old }
        ensures callable { callable self.new }
        ensures asked { asked self.old (key.now, value.old) self.new value.new result };

    // Takes a pair that is not to stay.
    fn take(&mut self, pair: (K, V))
        requires { callable self.old }
        ensures callable { callable self.new }
        ensures given { given self.old pair self.new };
}

// Drops what is not to stay.
#[derive(Drop)]
pub(crate) struct Retaining<F> {
    pub(crate) keep: F,
}

impl<K: Drop, V: Drop, F: FnMut(&K, &mut V) -> bool> Filter<K, V> for Retaining<F> {
    ghost callable = { λ s. F.IsAlwaysCallable s.keep };

    ghost asked = { λ s e t w b. AskedAtPair F.FnMut s.keep e t.keep w b };

    ghost given = { λ s e t. t.keep ≡ s.keep };

    fn stays(&mut self, key: &K, value: &mut V) -> bool {
        (self.keep)(key, value)
    }

    fn take(&mut self, pair: (K, V))
        requires { F.IsAlwaysCallable self.old.keep }
        ensures callable { F.IsAlwaysCallable self.new.keep }
        ensures given { self.new.keep ≡ self.old.keep }
    {
        drop(pair);
    }
}

// Hands on what is picked.
#[derive(Drop)]
pub(crate) struct Extracting<F, E> {
    pub(crate) pick: F,
    pub(crate) each: E,
}

impl<K, V, F: FnMut(&K, &mut V) -> bool, E: FnMut(K, V)> Filter<K, V> for Extracting<F, E> {
    ghost callable = { λ s. F.IsAlwaysCallable s.pick × E.IsAlwaysCallable s.each };

    ghost asked = { λ s e t w b. (picked : Bool) × AskedAtPair F.FnMut s.pick e t.pick w picked × (b ≡ not picked) × (t.each ≡ s.each) };

    ghost given = { λ s e t. GivenPair E.FnMut s.each e t.each × (t.pick ≡ s.pick) };

    fn stays(&mut self, key: &K, value: &mut V) -> bool {
        !(self.pick)(key, value)
    }

    fn take(&mut self, pair: (K, V))
        requires { F.IsAlwaysCallable self.old.pick × E.IsAlwaysCallable self.old.each }
        ensures callable { F.IsAlwaysCallable self.new.pick × E.IsAlwaysCallable self.new.each }
        ensures given { GivenPair E.FnMut self.old.each pair self.new.each × (self.new.pick ≡ self.old.pick) }
    {
        let (key, value) = pair;
        (self.each)(key, value);
    }
}

// Drops what is not to stay by its key.
#[derive(Drop)]
pub(crate) struct RetainingKeys<F> {
    pub(crate) keep: F,
}

impl<K: Drop, V: Drop, F: FnMut(&K) -> bool> Filter<K, V> for RetainingKeys<F> {
    ghost callable = { λ s. F.IsAlwaysCallable s.keep };

    ghost asked = { λ s e t w b. AskedAtKey F.FnMut s.keep e t.keep w b };

    ghost given = { λ s e t. t.keep ≡ s.keep };

    fn stays(&mut self, key: &K, _value: &mut V) -> bool {
        (self.keep)(key)
    }

    fn take(&mut self, pair: (K, V))
        requires { F.IsAlwaysCallable self.old.keep }
        ensures callable { F.IsAlwaysCallable self.new.keep }
        ensures given { self.new.keep ≡ self.old.keep }
    {
        drop(pair);
    }
}

// Hands on the keys that are picked, and drops their values.
#[derive(Drop)]
pub(crate) struct ExtractingKeys<F, E> {
    pub(crate) pick: F,
    pub(crate) each: E,
}

impl<K, V: Drop, F: FnMut(&K) -> bool, E: FnMut(K)> Filter<K, V> for ExtractingKeys<F, E> {
    ghost callable = { λ s. F.IsAlwaysCallable s.pick × E.IsAlwaysCallable s.each };

    ghost asked = { λ s e t w b. (picked : Bool) × AskedAtKey F.FnMut s.pick e t.pick w picked × (b ≡ not picked) × (t.each ≡ s.each) };

    ghost given = { λ s e t. GivenKey E.FnMut s.each e t.each × (t.pick ≡ s.pick) };

    fn stays(&mut self, key: &K, _value: &mut V) -> bool {
        !(self.pick)(key)
    }

    fn take(&mut self, pair: (K, V))
        requires { F.IsAlwaysCallable self.old.pick × E.IsAlwaysCallable self.old.each }
        ensures callable { F.IsAlwaysCallable self.new.pick × E.IsAlwaysCallable self.new.each }
        ensures given { GivenKey E.FnMut self.old.each pair self.new.each × (self.new.pick ≡ self.old.pick) }
    {
        let (key, _value) = pair;
        (self.each)(key);
    }
}

// Drops all.
#[derive(Drop)]
pub(crate) struct Dropping {}

impl<K: Drop, V: Drop> Filter<K, V> for Dropping {
    ghost callable = { λ _. ⊤ };

    ghost asked = { λ _ _ _ _ b. b ≡ false };

    ghost given = { λ _ _ _. ⊤ };

    fn stays(&mut self, _key: &K, _value: &mut V) -> bool {
        false
    }

    fn take(&mut self, pair: (K, V))
        ensures callable { ⊤ }
        ensures given { ⊤ }
    {
        drop(pair);
    }
}

// Counts those that do not stay.
#[derive(Drop)]
pub(crate) struct Counted<S> {
    pub(crate) filter: S,
    pub(crate) gone: usize,
}

impl<K, V, S: Filter<K, V>> Filter<K, V> for Counted<S> {
    ghost callable = { λ s. S.callable s.filter };

    ghost asked = { λ s e t w b. S.asked s.filter e t.filter w b × (t.gone ≡ s.gone) };

    ghost given = { λ s e t. S.given s.filter e t.filter × (s.gone + 1 < 2 ^ 64 → t.gone ≡ s.gone + 1) };

    fn stays(&mut self, key: &K, value: &mut V) -> bool {
        self.filter.stays(key, value)
    }

    fn take(&mut self, pair: (K, V))
        requires { S.callable self.old.filter }
        ensures callable { S.callable self.new.filter }
        ensures given { S.given self.old.filter pair self.new.filter × (self.old.gone + 1 < 2 ^ 64 → self.new.gone ≡ self.old.gone + 1) }
    {
        self.filter.take(pair);
        self.gone = self.gone.saturating_add(1);
    }
}
