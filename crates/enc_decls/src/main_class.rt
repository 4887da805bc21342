// The class with which a program starts.
ghost use Rattle.std.specs.Prelude.{◌≡◌, IfOk};
ghost use Rattle.enc_modes.specs.declared.ty.Ty.TheVariants as ty;
ghost use Rattle.enc_types.specs.Words.{some};
ghost use Rattle.enc_decls.specs.Rules as spec;

use enc_ast::{Decl, Method, Param, TypeText};
use enc_modes::{Shared, Ty};
use enc_types::Names;
use std::alloc::{AllocError, Global};

/// Whether there is an active class `Main` whose method `main` takes a list of integers and gives
/// nothing. Where memory runs out, it answers `AllocError`.
pub fn has_main(alloc: Global, decls: &[Decl], names: &Names) -> Result<bool, AllocError>
    ensures { IfOk result (λ it. it ≡ some (spec.is_main_class names.now) decls.now) }
{
    let ints = Ty::List(Shared::new(alloc, Ty::Int)?);
    has_main_class(names, &ints, decls)
}

fn has_main_class(names: &Names, ints: &Ty, decls: &[Decl]) -> Result<bool, AllocError>
    requires { ints.now ≡ ty.List ty.Int }
    ensures { IfOk result (λ it. it ≡ some (spec.is_main_class names.now) decls.now) }
{
    for decl in decls {
        if is_main_class(names, ints, decl)? {
            return Ok(true);
        }
    }
    Ok(false)
}

fn is_main_class(names: &Names, ints: &Ty, decl: &Decl) -> Result<bool, AllocError>
    requires { ints.now ≡ ty.List ty.Int }
    ensures { IfOk result (λ it. it ≡ spec.is_main_class names.now decl.now) }
{
    match decl {
        Decl::Active(class) => {
            Ok(
                class.name.word.is("Main")
                    && has_main_method(names, ints, class.methods.as_slice())?,
            )
        }
        _ => Ok(false),
    }
}

fn has_main_method(names: &Names, ints: &Ty, methods: &[Method]) -> Result<bool, AllocError>
    requires { ints.now ≡ ty.List ty.Int }
    ensures { IfOk result (λ it. it ≡ some (spec.is_main names.now) methods.now) }
{
    for method in methods {
        if is_main(names, ints, method)? {
            return Ok(true);
        }
    }
    Ok(false)
}

fn is_main(names: &Names, ints: &Ty, method: &Method) -> Result<bool, AllocError>
    requires { ints.now ≡ ty.List ty.Int }
    ensures { IfOk result (λ it. it ≡ spec.is_main names.now method.now) }
{
    Ok(
        method.name.word.is("main")
            && takes_ints(names, ints, method.params.as_slice())?
            && is_written(names, &method.result, &Ty::Unit)?,
    )
}

fn takes_ints(names: &Names, ints: &Ty, params: &[Param]) -> Result<bool, AllocError>
    requires { ints.now ≡ ty.List ty.Int }
    ensures { IfOk result (λ it. it ≡ spec.takes_ints names.now params.now) }
{
    match params {
        [param] => is_written(names, &param.ty, ints),
        _ => Ok(false),
    }
}

// Whether the written type is known to be this one.
fn is_written(names: &Names, text: &TypeText, ty: &Ty) -> Result<bool, AllocError>
    ensures { IfOk result (λ it. it ≡ spec.is_written names.now text.now ty.now) }
{
    match names.ty(text)? {
        None => Ok(false),
        Some(written) => Ok(written.is(ty)),
    }
}
