// Fields and methods with their types.
ghost use Rattle.std.specs.Prelude.{◌≡◌, [], ◌∷◌, map, IfOk, slice_get};
ghost use Rattle.std.specs.Option.{option_copied};
ghost use Rattle.enc_types.specs.Words.{place_in};
ghost use Rattle.enc_names.specs.Members.{members_of, field_slot, param_slot, signature, type_or_unit};

use enc_ast::{Decl, Field, Method, Param, Row, TypeText, Word};
use enc_modes::Ty;
use enc_types::{Names, Places};
use std::alloc::{AllocError, Global};
use std::marker::Model;

/// A field or a parameter, with its type.
#[derive(Drop)]
pub struct Slot {
    pub word: Word,
    pub ty: Ty,
}

/// A method or a function, with the types of what it takes and gives.
#[derive(Drop)]
pub struct Signature {
    pub word: Word,
    pub params: Row<Slot>,
    pub result: Ty,
}

/// A method, by the number of its declaration and its place there. A function stands at place 0 of its own.
#[derive(Clone, Copy, Debug, PartialEq, Eq)]
pub struct MethodId {
    pub owner: u32,
    pub index: u32,
}

/// The members of one declaration, each kind by its place and by its name.
#[derive(Drop)]
pub struct Members {
    slots: Row<Slot>,
    slot_words: Places,
    signatures: Row<Signature>,
    signature_words: Places,
}

impl Model for Members {
    ghost use Rattle.std.specs.Prelude.{◌≡◌, map};
    ghost use Rattle.std.specs.Coded.{codes};
    ghost use Rattle.enc_modes.specs.contracts.ty.Ty as ty;
    ghost use Rattle.enc_names.specs.Members as value;

    ghost Value = { value.Members };

    ghost coded = { Prim.hlevel (codes, ty.the_row.coded) };

    ghost view = { λ m. record { fields = m.slots; methods = m.signatures } };

    ghost invariant = { λ m. (m.slot_words ≡ map (λ s. s.word) m.slots) × (m.signature_words ≡ map (λ s. s.word) m.signatures) };
}

impl Members {
    /// The members of a declaration, by what the names of its program stand for, or `AllocError` where memory
    /// runs out.
    pub fn of(alloc: Global, names: &Names, decl: &Decl) -> Result<Members, AllocError>
        ensures { IfOk result (λ m. m ≡ members_of names.now decl.now) }
    {
        let (slots, signatures) = match decl {
            Decl::Trait(d) => (
                field_slots(alloc, names, d.fields.as_slice())?,
                signatures(alloc, names, d.methods.as_slice())?,
            ),
            Decl::Class(_) => (Row::new(alloc), Row::new(alloc)),
            Decl::Active(d) => (
                field_slots(alloc, names, d.fields.as_slice())?,
                signatures(alloc, names, d.methods.as_slice())?,
            ),
            Decl::Fun(d) => (Row::new(alloc), only_signature(alloc, names, d)?),
        };
        Members::by_name(alloc, slots, signatures)
    }

    fn by_name(
        alloc: Global,
        slots: Row<Slot>,
        signatures: Row<Signature>,
    ) -> Result<Members, AllocError>
        ensures { IfOk result (λ m. m ≡ record { fields = slots; methods = signatures }) }
    {
        let slot_words = slot_words(alloc, slots.as_slice())?;
        let signature_words = signature_words(alloc, signatures.as_slice())?;
        Ok(Members {
            slots,
            slot_words,
            signatures,
            signature_words,
        })
    }

    /// The place of the first field of this name.
    pub fn field(&self, name: &str) -> Option<u32>
        ensures { result ≡ place_in (map (λ s. s.word) self.now.fields) name.now }
    {
        self.slot_words.find(name)
    }

    /// The field in a place, or `None` past the end.
    pub fn slot(&self, at: u32) -> Option<&Slot>
        ensures { option_copied result ≡ slice_get self.now.fields at }
    {
        self.slots.get(at as usize)
    }

    /// The place of the first method of this name.
    pub fn method(&self, name: &str) -> Option<u32>
        ensures { result ≡ place_in (map (λ s. s.word) self.now.methods) name.now }
    {
        self.signature_words.find(name)
    }

    /// The method in a place, or `None` past the end.
    pub fn signature(&self, at: u32) -> Option<&Signature>
        ensures { option_copied result ≡ slice_get self.now.methods at }
    {
        self.signatures.get(at as usize)
    }
}

fn field_slots(alloc: Global, names: &Names, fields: &[Field]) -> Result<Row<Slot>, AllocError>
    ensures { IfOk result (λ slots. slots ≡ map (field_slot names.now) fields.now) }
{
    let mut slots = Row::new(alloc);
    for field in fields {
        slots.push(Slot {
            word: field.name.word.copy()?,
            ty: type_or_unit(names, &field.ty)?,
        })?;
    }
    Ok(slots)
}

fn signatures(
    alloc: Global,
    names: &Names,
    methods: &[Method],
) -> Result<Row<Signature>, AllocError>
    ensures { IfOk result (λ list. list ≡ map (signature names.now) methods.now) }
{
    let mut list = Row::new(alloc);
    for method in methods {
        list.push(signature_of(alloc, names, method)?)?;
    }
    Ok(list)
}

fn only_signature(alloc: Global, names: &Names, fun: &Method) -> Result<Row<Signature>, AllocError>
    ensures { IfOk result (λ list. list ≡ signature names.now fun.now ∷ []) }
{
    let mut list = Row::new(alloc);
    list.push(signature_of(alloc, names, fun)?)?;
    Ok(list)
}

fn signature_of(alloc: Global, names: &Names, method: &Method) -> Result<Signature, AllocError>
    ensures { IfOk result (λ s. s ≡ signature names.now method.now) }
{
    Ok(Signature {
        word: method.name.word.copy()?,
        params: param_slots(alloc, names, method.params.as_slice())?,
        result: type_or_unit(names, &method.result)?,
    })
}

fn param_slots(alloc: Global, names: &Names, params: &[Param]) -> Result<Row<Slot>, AllocError>
    ensures { IfOk result (λ slots. slots ≡ map (param_slot names.now) params.now) }
{
    let mut slots = Row::new(alloc);
    for param in params {
        slots.push(Slot {
            word: param.name.word.copy()?,
            ty: type_or_unit(names, &param.ty)?,
        })?;
    }
    Ok(slots)
}

// The type that is written, or `unit` where it stands for none.
fn type_or_unit(names: &Names, text: &TypeText) -> Result<Ty, AllocError>
    ensures { IfOk result (λ t. t ≡ type_or_unit names.now text.now) }
{
    Ok(names.ty(text)?.unwrap_or(Ty::Unit))
}

fn slot_words(alloc: Global, slots: &[Slot]) -> Result<Places, AllocError>
    ensures { IfOk result (λ words. words ≡ map (λ s. s.word) slots.now) }
{
    let mut words = Places::new(alloc);
    for slot in slots {
        words.add(&slot.word)?;
    }
    Ok(words)
}

fn signature_words(alloc: Global, signatures: &[Signature]) -> Result<Places, AllocError>
    ensures { IfOk result (λ words. words ≡ map (λ s. s.word) signatures.now) }
{
    let mut words = Places::new(alloc);
    for signature in signatures {
        words.add(&signature.word)?;
    }
    Ok(words)
}
