// The private tables by field.
ghost use Rattle.std.specs.Prelude.{◌*◌, ◌≤◌, length};

// The private tables of n descriptors, lent to be read: a slice for each field of descriptors and of list entries.
#[derive(Clone, Copy)]
pub struct Fields<'a> {
    pub n: u16,
    pub next: &'a [u16],
    pub flags: &'a [u16],
    pub noted: &'a [u16],
    pub addr: &'a [u64],
    pub len: &'a [u32],
    pub lens: &'a [u32],
    pub sides: &'a [bool],
    pub ghost next_of: { n ≤ length next.now },
    pub ghost flags_of: { n ≤ length flags.now },
    pub ghost noted_of: { n ≤ length noted.now },
    pub ghost addr_of: { n ≤ length addr.now },
    pub ghost len_of: { n ≤ length len.now },
    pub ghost lens_of: { n * n ≤ length lens.now },
    pub ghost sides_of: { n * n ≤ length sides.now },
}
