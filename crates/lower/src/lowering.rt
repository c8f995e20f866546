//! The code of a program.

ghost use Rattle.std.specs.Prelude.{◌≡◌, true, suc, map, Some, All, IfOk, IsOkUnless};
ghost use Rattle.plm_decl.specs.Names.{procedure_of};
ghost use Rattle.plm_type.specs.Statements.{interrupt_fits};
ghost use Rattle.plm_type.specs.View.{statements_of, procedures_of};
ghost use Rattle.lower.specs.Lowering.{kind_of, has_vector, IsLowered, last_module};
ghost use Rattle.plm_decl.specs.Names.{vector_of};
ghost use Rattle.lower.specs.Inner.Lowering.{plain, one_lowered, all_lowered};

use crate::callees::{Callees, are_giving, giving};
use crate::kind::Kind;
use crate::laws::{checked_code_is_sound, checked_trees_are_well_formed};
use crate::statements::Around;
use icode::{Code, Procedure};
use plm_decl::Names;
use plm_type::{Program, Statement};
use std::alloc::Global;
use word86::Fault;

// The vector that a procedure serves, in a byte.
fn vector_of(procedure: &plm_decl::Procedure) -> Option<u8>
    requires { interrupt_fits procedure.now.interrupt ≡ true }
    ensures { result ≡ vector_of (procedure_of procedure.now) }
{
    u8::try_from(procedure.vector()?).ok()
}

// What a procedure is that serves this vector, if any, and may give a value.
fn kind_of(vector: Option<u8>, gives: bool) -> Kind
    ensures { result ≡ kind_of (has_vector (Some vector)) gives }
{
    match vector {
        Some(_) => Kind::Serving,
        None if gives => Kind::Giving,
        None => Kind::Called,
    }
}

// How many sections the modules fill: as many as lead up to the last one that has a procedure, or main. A module's number is its
// place in a list in memory, so one more is below 2^64, and this `Memory` never comes.
fn sections_of(names: &Names) -> Result<usize, Fault>
    ensures sections { IfOk result (λ n. n ≡ suc (last_module names.now.main.module (map procedure_of names.now.procedures.items))) }
    ensures memory { IsOkUnless result Fault.Memory }
{
    let mut last = names.main.module;
    for procedure in &names.procedures {
        last = last.max(procedure.module);
    }
    last.checked_add(1).ok_or(Fault::Memory)
}

impl Around<'_> {
    // The code of a procedure, which ends by what serves an interrupt if it has a vector.
    fn procedure(
        self,
        declared: &plm_decl::Procedure,
        body: &[Box<Statement>],
    ) -> Result<Procedure, Fault>
        requires { interrupt_fits declared.now.interrupt ≡ true }
        ensures code { IfOk result (λ p. plain p ≡ one_lowered (procedures_of self.entry.callees.procedures.now) (procedure_of declared.now) (statements_of body.now)) }
        ensures memory { IsOkUnless result Fault.Memory }
    {
        let vector = vector_of(declared);
        let kind = kind_of(vector, are_giving(body));
        let instructions = Around { kind, ..self }.routine(body)?;
        Ok(Procedure {
            module: declared.module,
            vector,
            instructions,
        })
    }

    // The procedures' code, in order of declaration.
    fn all(self, names: &Names) -> Result<Vec<Procedure>, Fault>
        requires { All (λ p. interrupt_fits p.interrupt ≡ true) names.now.procedures.items }
        ensures code { IfOk result (λ r. map plain r.items ≡ all_lowered (procedures_of self.entry.callees.procedures.now) (map procedure_of names.now.procedures.items) (procedures_of self.entry.callees.procedures.now)) }
        ensures memory { IsOkUnless result Fault.Memory }
    {
        let mut procedures = Vec::new(self.alloc);
        for (declared, procedure) in names.procedures.iter().zip(self.callees.procedures) {
            procedures.push(self.procedure(declared, &procedure.body)?)?;
        }
        Ok(procedures)
    }
}

/// The intermediate code of a checked program: main's, and each procedure's in the section of its module, with the vector that it
/// serves, and the program's table of those who serve vectors. Levels, jumps and calls are sound: `Code` keeps that.
///
/// # Errors
///
/// `Fault::Memory` where a growth of memory was refused, and nothing else.
pub fn lower(alloc: Global, program: &Program) -> Result<Code, Fault>
    ensures lowered { IfOk result (λ c. IsLowered program.now.names c) }
    ensures memory { IsOkUnless result Fault.Memory }
{
    checked_trees_are_well_formed();
    checked_code_is_sound();
    let names = program.names();
    let procedures = program.procedures();
    let giving = giving(alloc, procedures)?;
    let around = Around {
        alloc,
        callees: Callees {
            procedures,
            giving: &giving,
        },
        kind: Kind::OfMain,
    };
    let mut order = Vec::new(alloc);
    order.extend_from_slice(program.order())?;
    let mut handlers = Vec::new(alloc);
    handlers.extend_from_slice(program.handler_numbers())?;
    let sections = sections_of(names)?;
    let main = around.routine(program.main())?;
    let procedures = around.all(names)?;
    Ok(Code {
        sections,
        main_module: names.main.module,
        main,
        procedures,
        order,
        handlers,
    })
}
