// Types as a program writes them.

use crate::{Boxed, GroupText, Items, Span};

/// A type at a place of the text.
#[cycle(type_text)]
#[derive(Drop)]
pub struct TypeText {
    pub form: TypeForm,
    pub span: Span,
}

/// What a type says.
#[cycle(type_text)]
#[derive(Drop)]
pub enum TypeForm {
    Int,
    Bool,
    Text,
    Unit,
    /// A value that will be there later.
    Fut(Boxed<TypeText>),
    /// A tree of values, each of which is there now or later.
    Par(Boxed<TypeText>),
    List(Boxed<TypeText>),
    /// An object of some actor, to which messages can be sent.
    Bestowed(Boxed<TypeText>),
    /// A class, or traits in groups.
    Cap(Items<GroupText>),
}
