//! Sections of host memory, and the items of data clauses.

ghost use Rattle.std.specs.Prelude.{◌≡◌};
ghost use Rattle.acc_base.specs.Items.{region_word, exit_word, update_word};
ghost use Rattle.acc_base.specs.Section.{end_of, is_within, is_apart};
ghost use Rattle.acc_base.specs.Clauses.{as_region, section_named, copies_in, copies_out, is_copyout, is_to_self, is_zeroed, is_attach, is_detach};

/// The host addresses from `start` to `start + len - 1`, in bytes (OpenACC 3.3, section 2.6, data environment).
///
/// Addresses are whole numbers without an upper bound: a section may reach past the last `u64`.
#[derive(Clone, Copy, Debug, PartialEq, Eq)]
pub struct Section {
    /// The first host address.
    pub start: u64,
    /// The length in bytes. With 0 the section is empty.
    pub len: u64,
}

impl Section {
    /// The host address behind its last one.
    pub fn end(self) -> u128
        ensures { result ≡ end_of self }
    {
        u128::from(self.start) + u128::from(self.len)
    }

    /// Whether each of its addresses is one of the other's. It is not empty.
    pub fn is_within(self, other: Section) -> bool
        ensures { result ≡ is_within self other }
    {
        other.start <= self.start && self.end() <= other.end()
    }

    /// Whether none of its addresses is one of the other's. Neither is empty.
    pub fn is_apart(self, other: Section) -> bool
        ensures { result ≡ is_apart self other }
    {
        self.end() <= u128::from(other.start) || other.end() <= u128::from(self.start)
    }

    /// What an item names of it: nothing at its start, where the item names a pointer alone.
    pub fn named(self, is_pointer: bool) -> Section
        ensures { result ≡ section_named is_pointer self }
    {
        Section {
            start: self.start,
            len: if is_pointer { 0 } else { self.len },
        }
    }
}

/// One item of a data clause: the clause and the section that stands in it.
#[derive(Clone, Copy, Debug, PartialEq, Eq)]
pub struct Item<C> {
    /// The clause in which the item stands.
    pub clause: C,
    /// The section of host memory that it names. In an item of `attach` or `detach` its start is the host address of
    /// the pointer, and its length is not read.
    pub section: Section,
    /// The host address of the pointer to the section's data. It is attached after the item was counted on entry, and
    /// detached before the item is dropped on exit. It is not read with an empty section, nor in an item of `attach`,
    /// `detach` or `update`.
    pub pointer: Option<u64>,
}

/// The data clauses of a structured region: those of the `data` construct (OpenACC 3.3, sections 2.6.5 and 2.7).
#[derive(Clone, Copy, Debug, PartialEq, Eq)]
pub enum RegionClause {
    /// The `copy` clause: as `copyin` on entry, and as `copyout` on exit.
    Copy,
    /// The `copyin` clause: where the section is absent on entry, it is mapped to a new block, which gets its bytes.
    Copyin,
    /// The `copyout` clause: where the section is absent on entry, it is mapped to a new block. Where the mapping ends
    /// on exit, the bytes of the section are first copied to host memory.
    Copyout {
        /// The `zero` modifier: each byte of a new block is 0, and not 0xA5.
        zero: bool,
    },
    /// The `create` clause: as `copyout`, but no byte is copied.
    Create {
        /// The `zero` modifier: each byte of a new block is 0, and not 0xA5.
        zero: bool,
    },
    /// The `no_create` clause: a section that is absent on entry is passed over.
    NoCreate,
    /// The `present` clause: a section that is absent on entry is refused.
    Present,
    /// The `attach` clause: on entry the pointer is attached, and on exit it is detached.
    Attach,
}

impl RegionClause {
    /// The word of the clause, as in OpenACC; that of `attach` is one of scripts.
    pub fn word(self) -> &'static str
        ensures { result.now ≡ region_word self }
    {
        match self {
            RegionClause::Copy => "copy",
            RegionClause::Copyin => "copyin",
            RegionClause::Copyout { .. } => "copyout",
            RegionClause::Create { .. } => "create",
            RegionClause::NoCreate => "no_create",
            RegionClause::Present => "present",
            RegionClause::Attach => "attach",
        }
    }

    /// Whether a new block gets the bytes of the section.
    pub fn copies_in(self) -> bool
        ensures { result ≡ copies_in self }
    {
        matches!(self, RegionClause::Copy | RegionClause::Copyin)
    }

    /// Whether host memory gets the bytes of the section just before the mapping ends.
    pub fn copies_out(self) -> bool
        ensures { result ≡ copies_out self }
    {
        matches!(self, RegionClause::Copy | RegionClause::Copyout { .. })
    }

    /// Whether it has the modifier `zero`.
    pub fn is_zeroed(self) -> bool
        ensures { result ≡ is_zeroed self }
    {
        match self {
            RegionClause::Copyout { zero } | RegionClause::Create { zero } => zero,
            _ => false,
        }
    }

    /// Whether it is `attach`, which names a pointer alone.
    pub fn is_attach(self) -> bool
        ensures { result ≡ is_attach self }
    {
        matches!(self, RegionClause::Attach)
    }
}

/// The clauses of the `enter data` directive (OpenACC 3.3, sections 2.6.6 and 2.7).
#[derive(Clone, Copy, Debug, PartialEq, Eq)]
pub enum EnterClause {
    /// The `copyin` clause: where the section is inside a mapped range, its dynamic counter rises. Where it is absent,
    /// it is mapped to a new block, which gets its bytes.
    Copyin,
    /// The `create` clause: as `copyin`, but no byte is copied. Each byte of a new block is 0xA5.
    Create {
        /// The `zero` modifier: each byte of a new block is 0.
        zero: bool,
    },
    /// The `attach` clause: the pointer is attached.
    Attach,
}

impl EnterClause {
    /// The clause of a region that does the same on entry.
    pub fn as_region(self) -> RegionClause
        ensures { result ≡ as_region self }
    {
        match self {
            EnterClause::Copyin => RegionClause::Copyin,
            EnterClause::Create { zero } => RegionClause::Create { zero },
            EnterClause::Attach => RegionClause::Attach,
        }
    }
}

/// The clauses of the `exit data` directive (OpenACC 3.3, sections 2.6.6 and 2.7).
#[derive(Clone, Copy, Debug, PartialEq, Eq)]
pub enum ExitClause {
    /// The `delete` clause: where the section is inside a mapped range, its dynamic counter falls, if it is above zero.
    /// At the end of the mapping nothing is copied.
    Delete,
    /// The `copyout` clause: as `delete`, but where the mapping ends, the bytes of the section are first copied to host
    /// memory.
    Copyout,
    /// The `detach` clause: the pointer is detached, with `finalize` at once.
    Detach,
}

impl ExitClause {
    /// The word of the clause, as in OpenACC.
    pub fn word(self) -> &'static str
        ensures { result.now ≡ exit_word self }
    {
        match self {
            ExitClause::Delete => "delete",
            ExitClause::Copyout => "copyout",
            ExitClause::Detach => "detach",
        }
    }

    /// Whether host memory gets the bytes of the section just before the mapping ends.
    pub fn copies_out(self) -> bool
        ensures { result ≡ is_copyout self }
    {
        matches!(self, ExitClause::Copyout)
    }

    /// Whether it is `detach`, which names a pointer alone.
    pub fn is_detach(self) -> bool
        ensures { result ≡ is_detach self }
    {
        matches!(self, ExitClause::Detach)
    }
}

/// The clauses of the `update` directive (OpenACC 3.3, the update directive).
#[derive(Clone, Copy, Debug, PartialEq, Eq)]
pub enum UpdateClause {
    /// The `self` clause, also written `host`: the bytes of the section are copied from the device to host memory.
    ToSelf,
    /// The `device` clause: the bytes of the section are copied from host memory to the device.
    ToDevice,
}

impl UpdateClause {
    /// The word of the clause, as in OpenACC.
    pub fn word(self) -> &'static str
        ensures { result.now ≡ update_word self }
    {
        match self {
            UpdateClause::ToSelf => "self",
            UpdateClause::ToDevice => "device",
        }
    }

    /// Whether it copies to host memory, and not to the device.
    pub fn copies_out(self) -> bool
        ensures { result ≡ is_to_self self }
    {
        matches!(self, UpdateClause::ToSelf)
    }
}
