// The 16-bit indices of the rings, counted by wrapping add and compared by wrapping subtract (document 01, "Rules of the calls" and its forms).
#![tactic(auto)]

ghost use Rattle.std.specs.Prelude.{◌≡◌};
ghost use Rattle.lists.specs.Index.{after as after_is, ahead as ahead_is};

// The index after x.
pub fn after(x: u16) -> u16
    ensures { result ≡ after_is x }
{
    x.wrapping_add(1)
}

// How far the index a is ahead of the index b, across the wrap.
pub fn ahead(a: u16, b: u16) -> u16
    ensures { result ≡ ahead_is a b }
{
    a.wrapping_sub(b)
}
