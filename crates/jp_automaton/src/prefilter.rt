//! A prefilter: by which three bytes a match may begin, and by which byte it may end.

ghost use Rattle.std.specs.Prelude.{◌≡◌, ◌<◌, ◌≤◌, [], false, drop, IfOk, IfSome, OnOk, List, ℕ, length};
ghost use Rattle.jp_automaton.specs.inner.ByteSets.{AreInSets};
ghost use Rattle.jp_automaton.specs.inner.Prefilter.{AreFlagsOf, AreOnes, IsPrefilter, AreTwos, HasPair};
ghost use Rattle.jp_automaton.specs.inner.Prefilter.{AreEndings, EndsNone, HaveBehind, IsEndings};
ghost use Rattle.jp_automaton.specs.inner.Prefilter.{KeepsPairs, LeadsTogether};

use crate::beginnings::Beginnings;
use crate::byte_flags::ByteFlags;
use crate::byte_sets::ByteSet;
use crate::dfa::{Dfa, MATCH_OR_DEAD};
use crate::limits::{LANES, MAX_FLAGGED, MAX_PAIRS, STRIDE, WINDOW};
use std::alloc::{AllocError, Global};

/// The flags of each byte, or none where they would tell too little.
#[derive(Drop)]
pub struct Prefilter {
    pub flags: Vec<ByteFlags>,
    /// The flagged bytes as sets, in which sixteen bytes are looked up together.
    pub beginnings: Beginnings,
    /// The bytes by which a search ends, where few texts have one.
    pub endings: Option<ByteSet>,
    ghost flagged: { ∥ AreInSets beginnings flags.items (length flags.items) ∥₁ },
}

/// The states behind some bytes, and behind the same bytes without the first of them.
#[derive(Clone, Copy)]
struct Pair {
    all: u8,
    later: u8,
}

impl Prefilter {
    ghost use Rattle.jp_automaton.specs.inner.Dfa.{state_behind};

    /// No flags.
    pub(crate) fn new(alloc: Global, endings: Option<ByteSet>) -> Prefilter
        ensures flags { result.flags.items ≡ [] }
        ensures endings { result.endings ≡ endings }
    {
        Prefilter {
            flags: Vec::new(alloc),
            beginnings: Beginnings::new(),
            endings,
        }
    }

    /// Whether the bytes may have one by which a search ends: without one nothing is found.
    pub(crate) fn may_end(&self, bytes: &[u8]) -> bool
        ensures { (cells : List ℕ) → AreEndings cells self.now.endings → result ≡ false
            → state_behind cells 0 bytes.now < MATCH_OR_DEAD }
    {
        match &self.endings {
            Some(set) => set.has_any(bytes),
            None => true,
        }
    }

    /// How many bytes may be passed from the start: the same state is reached without them.
    pub(crate) fn find(&self, bytes: &[u8]) -> usize
        requires { length self.now.flags.items ≡ 256 }
        ensures within { result ≤ length bytes.now }
        ensures same { (cells : List ℕ) → IsPrefilter cells self.now.flags.items →
            state_behind cells 0 bytes.now ≡ state_behind cells 0 (drop result bytes.now) }
    {
        if bytes.len() < WINDOW {
            return self.find_slowly(bytes);
        }
        let last = bytes.len() - WINDOW;
        let mut from = 0;
        while from < last {
            let found = self.beginnings.among(bytes, from);
            if found != 0 {
                return from + found.trailing_zeros() as usize;
            }
            from += LANES;
        }
        // The last window may overlap the one before it: few bytes are left to be looked at one by one.
        let found = self.beginnings.among(bytes, last);
        if found != 0 {
            return last + found.trailing_zeros() as usize;
        }
        last + LANES + self.find_slowly(&bytes[last + LANES..])
    }

    /// The same, byte by byte: where there are fewer bytes than a window has.
    fn find_slowly(&self, bytes: &[u8]) -> usize
        requires { length self.now.flags.items ≡ 256 }
        ensures within { result ≤ length bytes.now }
        ensures same { (cells : List ℕ) → IsPrefilter cells self.now.flags.items →
            state_behind cells 0 bytes.now ≡ state_behind cells 0 (drop result bytes.now) }
    {
        // Three bytes in a row: one alone would be that of a match too often
        // (README, The first byte is not enough).
        let mut one = 0u8;
        let mut two = 0u8;
        for (i, byte) in bytes.iter().enumerate() {
            let flags = self.flags[usize::from(*byte)];
            if two & flags.third != 0 {
                return i - 2;
            }
            two = one & flags.second;
            one = flags.first;
        }
        if two != 0 {
            bytes.len() - 2
        } else if one != 0 {
            bytes.len() - 1
        } else {
            bytes.len()
        }
    }
}

/// The prefilter of a DFA, where its flags tell enough.
///
/// # Errors
///
/// Memory ran out.
pub(crate) fn make_prefilter(alloc: Global, dfa: &Dfa) -> Result<Prefilter, AllocError>
    ensures begins { IfOk result (λ prefilter. IsPrefilter dfa.now.cells.items prefilter.flags.items) }
    ensures ends { IfOk result (λ prefilter. AreEndings dfa.now.cells.items prefilter.endings) }
{
    let endings = endings_of(dfa);
    if dfa.states.is_empty() {
        return Ok(Prefilter::new(alloc, endings));
    }
    let ones = pairs_behind_one(alloc, dfa)?;
    let Some(twos) = pairs_behind_two(alloc, dfa, &ones)? else {
        return Ok(Prefilter::new(alloc, endings));
    };
    let mut flags = Vec::new(alloc);
    for byte in 0..STRIDE {
        flags.push(flags_of(dfa, &ones, &twos, byte as u8))?;
    }
    if tell_enough(&flags) {
        let beginnings = Beginnings::flagged(&flags);
        Ok(Prefilter {
            flags,
            beginnings,
            endings,
        })
    } else {
        Ok(Prefilter::new(alloc, endings))
    }
}

/// The bytes by which a search ends, where few texts have one.
fn endings_of(dfa: &Dfa) -> Option<ByteSet>
    ensures { AreEndings dfa.now.cells.items result }
{
    let set = ending_bytes(dfa);
    if is_common(&set) { None } else { Some(set) }
}

/// The bytes by which a search ends from some state.
fn ending_bytes(dfa: &Dfa) -> ByteSet
    ensures { IsEndings dfa.now.cells.items result 256 }
{
    let mut set = ByteSet::new();
    for byte in 0..STRIDE {
        let flag = flag_if(ends_by(dfa, byte as u8));
        set.add_if(flag, byte as u8);
    }
    set
}

/// Whether a search ends by the byte from some state.
fn ends_by(dfa: &Dfa, byte: u8) -> bool
    ensures { result ≡ false → EndsNone dfa.now.cells.items MATCH_OR_DEAD byte }
{
    // Behind the states that have cells each one stays where it is.
    let count = (dfa.cells.len() / STRIDE).saturating_add(1);
    for state in 0..MATCH_OR_DEAD {
        if usize::from(state) >= count {
            return false;
        }
        if dfa.after(state, byte) >= MATCH_OR_DEAD {
            return true;
        }
    }
    false
}

/// Whether most texts have a byte of the set: a small letter, or a blank.
fn is_common(set: &ByteSet) -> bool {
    for byte in b'a'..b'{' {
        if set.has(byte) {
            return true;
        }
    }
    set.has(b' ')
}

/// The states behind each byte that does not lead back to the start, with the start.
fn pairs_behind_one(alloc: Global, dfa: &Dfa) -> Result<Vec<Pair>, AllocError>
    ensures { IfOk result (λ pairs. AreOnes dfa.now.cells.items pairs.items) }
{
    let mut pairs = Vec::new(alloc);
    for byte in 0..STRIDE {
        let pair = Pair {
            all: dfa.after(0, byte as u8),
            later: 0,
        };
        add_pair(&mut pairs, pair)?;
    }
    Ok(pairs)
}

/// Adds the pair, where its states are not the same and it is not the last one.
fn add_pair(pairs: &mut Vec<Pair>, pair: Pair) -> Result<(), AllocError>
    ensures has { OnOk result (HasPair pairs.new.items pair.all pair.later) }
    ensures keeps { OnOk result (KeepsPairs pairs.old.items pairs.new.items) }
{
    if pair.all == pair.later {
        return Ok(());
    }
    if let Some(last) = pairs.last() {
        if last.all == pair.all && last.later == pair.later {
            return Ok(());
        }
    }
    pairs.push(pair)?;
    Ok(())
}

/// The pairs behind one more byte, where there are not too many.
fn pairs_behind_two(
    alloc: Global,
    dfa: &Dfa,
    ones: &[Pair],
) -> Result<Option<Vec<Pair>>, AllocError>
    ensures { IfOk result (λ found. IfSome found (λ pairs.
        AreTwos dfa.now.cells.items ones.now pairs.items (length ones.now))) }
{
    let mut pairs = Vec::new(alloc);
    for pair in ones {
        if pairs.len() > MAX_PAIRS {
            return Ok(None);
        }
        add_behind(dfa, *pair, &mut pairs)?;
    }
    Ok(Some(pairs))
}

/// Adds the pairs behind a pair and each byte.
fn add_behind(dfa: &Dfa, pair: Pair, pairs: &mut Vec<Pair>) -> Result<(), AllocError>
    ensures has { OnOk result (HaveBehind dfa.now.cells.items pairs.new.items pair 256) }
    ensures keeps { OnOk result (KeepsPairs pairs.old.items pairs.new.items) }
{
    for byte in 0..STRIDE {
        let next = Pair {
            all: dfa.after(pair.all, byte as u8),
            later: dfa.after(pair.later, byte as u8),
        };
        add_pair(pairs, next)?;
    }
    Ok(())
}

/// The flags of a byte, by the pairs behind one byte and behind two.
fn flags_of(dfa: &Dfa, ones: &[Pair], twos: &[Pair], byte: u8) -> ByteFlags
    ensures { AreFlagsOf dfa.now.cells.items ones.now twos.now byte result }
{
    ByteFlags {
        first: flag_if(dfa.after(0, byte) != 0),
        second: flag_if(tells_apart(dfa, ones, byte)),
        third: flag_if(tells_apart(dfa, twos, byte)),
    }
}

/// The flag as a bit.
fn flag_if(flagged: bool) -> u8
    ensures bit { result ≤ 1 }
    ensures none { result ≡ 0 → flagged ≡ false }
{
    if flagged { 1 } else { 0 }
}

/// Whether the byte leads from the two states of some pair to different ones.
fn tells_apart(dfa: &Dfa, pairs: &[Pair], byte: u8) -> bool
    ensures { result ≡ false → LeadsTogether dfa.now.cells.items pairs.now byte }
{
    for pair in pairs {
        if dfa.after(pair.all, byte) != dfa.after(pair.later, byte) {
            return true;
        }
    }
    false
}

/// Whether few characters of ASCII are flagged at one of the three bytes.
fn tell_enough(flags: &[ByteFlags]) -> bool
    requires { 128 ≤ length flags.now }
{
    let ascii = &flags[..128];
    let first = ascii.iter().filter(|one| one.first != 0).count();
    let second = ascii.iter().filter(|one| one.second != 0).count();
    let third = ascii.iter().filter(|one| one.third != 0).count();
    first.min(second).min(third) <= MAX_FLAGGED
}
