// The keys of an order's numbers, made here and nowhere else.
ghost use Rattle.std.specs.Prelude.{◌≤◌, eqb, length, get_or, not, ◌∷◌, ◌≡◌};
ghost use Rattle.rules.specs.Lists.{keep, in_order, rising};
ghost use Rattle.rules.specs.Number.{key, plain, ssi_of, extension_of, identified, identity_key};
ghost use Rattle.rules.specs.Named.{numbers_in, max_numbers, max_listed_owners};
ghost use Rattle.order.specs.Keys.{fitting, keys_as, keys_held};
ghost use Rattle.order.specs.Lists.{identity_of, list_of};
ghost use Rattle.order.specs.Numbers.{radio_number, group_number, radio_at, group_at, asked_group};

use crate::rising::sort;
use crate::spelling::keys_in;
use crate::{
    GroupAsked, GroupKey, Gtsi, Identity, Itsi, Key, Most, Numbers, Owners, RadioKey, Radios,
};
use rows::{MAX_LISTED_OWNERS, MAX_NUMBERS, MAX_OWNERS, lesser};
use std::marker::PhantomData;

// Keys of groups or of radios: how many, and their words; the words past them are 0.
// Stays: the words past the count are 0 by `keys_as`, which owners-in-unique and the like determine, and the value is Copy: no library's vector is both.
#[derive(Clone, Copy)]
pub struct Keys<K, const N: usize> {
    pub count: usize,
    pub key: [u64; N],
    pub of: PhantomData<K>,
}

// The keys of one extension.
const EXTENSION_KEYS: u64 = 0x100_0000;

// A number as the ledger knows it: its extension, then its SSI.
#[tactic(auto, unfolding(rules::specs::Number::key))]
fn key(ssi: u32, extension: u32) -> u64
    ensures { result ≡ key (plain extension ssi) }
{
    u64::from(extension) * EXTENSION_KEYS + u64::from(ssi)
}

// The key of a group's number.
impl From<Gtsi> for GroupKey {
    ghost from_gives = { λ g k. k.0 ≡ key (group_number g) };

    // Stays: keys of groups and of radios are types apart, so that none is taken for the other; what they share is `key`.
    fn from(group: Gtsi) -> GroupKey {
        GroupKey(key(group.0, group.1))
    }
}

// The key of a radio's number.
impl From<Itsi> for RadioKey {
    ghost from_gives = { λ r k. k.0 ≡ key (radio_number r) };

    fn from(radio: Itsi) -> RadioKey {
        RadioKey(key(radio.0, radio.1))
    }
}

// The SSI of a key.
fn ssi_of(key: u64) -> u32
    ensures { result ≡ ssi_of key }
{
    (key % EXTENSION_KEYS) as u32
}

// The extension of a key.
fn extension_of(key: u64) -> u32
    ensures { result ≡ extension_of key }
{
    (key / EXTENSION_KEYS % EXTENSION_KEYS) as u32
}

// A group's number, both parts.
impl From<GroupKey> for Gtsi {
    ghost from_gives = { λ k g. g ≡ group_at k.0 };

    // Stays: likewise; what they share is `ssi_of` and `extension_of`.
    fn from(group: GroupKey) -> Gtsi {
        Gtsi(ssi_of(group.0), extension_of(group.0))
    }
}

// A radio's number, both parts.
impl From<RadioKey> for Itsi {
    ghost from_gives = { λ k r. r ≡ radio_at k.0 };

    fn from(radio: RadioKey) -> Itsi {
        Itsi(ssi_of(radio.0), extension_of(radio.0))
    }
}

// The group that a list or a show asks for: a plain SSI takes the asker's extension.
pub fn asked_group(asker: Itsi, asked: GroupAsked) -> Gtsi
    ensures { result ≡ asked_group asker asked }
{
    match asked {
        GroupAsked::Whole(group) => group,
        GroupAsked::Plain(ssi) => Gtsi(ssi, asker.1),
    }
}

// The extension of the number that an identity names; `home` is the asker's, which a plain SSI takes.
pub fn extension_in(identity: Identity, home: u32) -> u32
    ensures { result ≡ (identified home (identity_of identity)).extension }
{
    if identity.form == 2 {
        return identity.extension;
    }
    home
}

// The key of that number.
pub fn identity_key(identity: Identity, home: u32) -> u64
    ensures { result ≡ identity_key home (identity_of identity) }
{
    key(identity.ssi, extension_in(identity, home))
}

// The group that an identity names.
pub fn group_in(asker: Itsi, identity: Identity) -> GroupKey
    ensures { result.0 ≡ identity_key asker.1 (identity_of identity) }
{
    GroupKey(identity_key(identity, asker.1))
}

// The keys of a list; none where it is not given, or names too many.
// Stays: one line, with the bound of groups and radios, as `too_many` and `too_many_owners` have theirs; asker and list apart, since
// an order has one asker and up to three lists.
pub fn keys_named<K: Key>(asker: Itsi, list: Option<Numbers>) -> Keys<K, MAX_NUMBERS>
    ensures { result ≡ keys_as (fitting max_numbers (numbers_in asker.1 (list_of list))) }
{
    keys_in(asker.1, list, Most { count: MAX_NUMBERS })
}

impl<K: Key, const N: usize> Keys<K, N> {
    // How many there are.
    pub fn len(&self) -> usize
        ensures value { result ≡ length (keys_held self.now) }
        ensures few { result ≤ N }
    {
        lesser(self.count, N)
    }

    // Their words.
    pub fn as_slice(&self) -> &[u64]
        ensures { result.now ≡ keys_held self.now }
    {
        &self.key[..self.len()]
    }

    // One of them, key 0 past the end. Whoever wants keys goes over their places with it: a word could be taken for a key of either.
    pub fn at(&self, i: usize) -> K
        ensures { K.word_of result ≡ get_or (keys_held self.now) i 0 }
    {
        K::of(self.as_slice().get(i).copied().unwrap_or(0))
    }

    // They, rising.
    pub fn rising(&self) -> Self
        ensures { result ≡ keys_as (in_order (keys_held self.now)) }
    {
        let count = self.len();
        let mut key = [0u64; N];
        key[..count].copy_from_slice(self.as_slice());
        sort(&mut key[..count]);
        Keys {
            count,
            key,
            of: PhantomData,
        }
    }
}

// The asker, then the keys that differ from him.
fn with_asker(asker: RadioKey, listed: &[u64]) -> Owners
    requires { length listed.now ≤ max_listed_owners }
    ensures { result ≡ keys_as (asker.0 ∷ keep (λ y. not (eqb asker.0 y)) listed.now) }
{
    let mut key = [0u64; MAX_OWNERS];
    key[0] = asker.0;
    let mut count: usize = 1;
    for owner in listed {
        if asker.0 != *owner {
            key[count] = *owner;
            count += 1;
        }
    }
    Keys {
        count,
        key,
        of: PhantomData,
    }
}

// The owners that an order gives, rising: "asker plus those listed"; the asker alone where too many are.
pub fn owners_in(asker: Itsi, list: Option<Numbers>) -> Owners
    ensures { result ≡ keys_as (rising (key (radio_number asker) ∷ fitting max_listed_owners (numbers_in asker.1 (list_of list)))) }
{
    let most = Most {
        count: MAX_LISTED_OWNERS,
    };
    let listed: Radios = keys_in(asker.1, list, most);
    with_asker(RadioKey::from(asker), listed.as_slice()).rising()
}
