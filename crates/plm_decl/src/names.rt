//! What a program declares.

ghost use Rattle.std.specs.Prelude.{◌≡◌, ◌≤◌, map, true};
ghost use Rattle.std.specs.List.{list_all, sum_by};
ghost use Rattle.word86.specs.MemoryMap.{data_room};
ghost use Rattle.plm_decl.specs.Layout.{structure_of};
ghost use Rattle.plm_decl.specs.Names.{object_of, procedure_of, vector_of, declared_location_of, main_of};
ghost use Rattle.plm_decl.specs.Ranges.{names_within};
ghost use Rattle.plm_decl.specs.Lying.{views_lie};
ghost use Rattle.plm_decl.specs.Values.{values_fit};

use crate::layout::{Form, ScalarType};
use crate::resolved::{Location, Statement};
use crate::structure::Structure;
use plm_syntax::{Linkage, Position};
use word86::Page;

/// Where a variable's bytes lie.
#[derive(Clone, Copy, PartialEq, Eq)]
pub enum Region {
    /// In a RAM object, by its number, from this many bytes after its first on.
    Ram(usize, u64),
    /// On a page of the screen, this many bytes after its first, which has the address 0B0000H (monochrome) or 0B8000H (colour).
    Screen(Page, u64),
    /// Where the variable of this number says.
    Based(usize),
    /// Nowhere: an EXTERNAL name before it is joined with its PUBLIC, or what an EXTERNAL procedure declares.
    Nowhere,
}

/// A declared variable: a view of bytes as elements.
#[derive(Clone, Copy)]
pub struct Variable {
    pub module: usize,
    pub place: Position,
    pub form: Form,
    pub dimension: Option<u32>,
    /// How many bytes an element has.
    pub stride: u64,
    pub region: Region,
    /// Whether DATA declares it: it may not be assigned.
    pub is_data: bool,
}

/// What a declared name stands for: a variable or a procedure, by its number.
#[derive(Clone, Copy)]
pub enum Item {
    Variable(usize),
    Procedure(usize),
}

/// An initial value.
#[derive(Clone, Copy, PartialEq, Eq)]
pub enum Datum {
    Byte(u8),
    Word(u16),
    /// The address that lies this many bytes, modulo 65,536, after the first of a variable.
    Variable(usize, u16),
    /// The address of constant bytes, by the number of their object.
    Constants(usize),
}

/// An object in RAM: its name, its bytes, and the values that its first bytes have at start.
#[derive(Drop)]
pub struct Object {
    /// The names of the blocks around it and its own, parted by dots, in capitals and without dollar signs.
    pub path: Vec<u8>,
    pub size: u64,
    pub initial: Vec<Datum>,
}

/// A name that is placed on the screen: its bytes, its page, how many bytes after the page's first it begins, and how many RAM
/// objects are declared before it.
#[derive(Drop)]
pub struct ScreenName {
    pub path: Vec<u8>,
    pub size: u64,
    pub page: Page,
    pub offset: u64,
    pub objects_before: usize,
}

/// A procedure.
#[derive(Drop)]
pub struct Procedure {
    pub path: Vec<u8>,
    pub module: usize,
    pub place: Position,
    /// The variables that get the arguments.
    pub parameters: Vec<usize>,
    pub returned: Option<ScalarType>,
    /// The number of INTERRUPT.
    pub interrupt: Option<u32>,
    pub linkage: Linkage,
    /// What stands first in an EXTERNAL procedure besides the declarations of its parameters.
    pub stray: Option<Position>,
    /// The procedure whose body a call runs: itself, or for an EXTERNAL procedure its PUBLIC one.
    pub entry: usize,
    pub body: Vec<Statement>,
}

impl Procedure {
    /// The vector that it serves, as its INTERRUPT says. An EXTERNAL procedure serves none: its PUBLIC one does.
    pub fn vector(&self) -> Option<u32>
        ensures { result ≡ vector_of (procedure_of self.now) }
    {
        match self.linkage {
            Linkage::External => None,
            Linkage::None | Linkage::Public => self.interrupt,
        }
    }
}

/// A location of an AT, INITIAL or DATA, with its module.
#[derive(Drop)]
pub struct DeclaredLocation {
    pub module: usize,
    pub location: Location,
}

/// The statements of a module's outer level.
#[derive(Drop)]
pub struct Main {
    pub module: usize,
    pub statements: Vec<Statement>,
}

/// What a program declares, in order of declaration, and main's statements.
#[derive(Drop)]
pub struct Names {
    pub variables: Vec<Variable>,
    pub structures: Vec<Structure>,
    pub objects: Vec<Object>,
    pub screen_names: Vec<ScreenName>,
    pub procedures: Vec<Procedure>,
    pub locations: Vec<DeclaredLocation>,
    pub main: Main,
    // Each number that stands in the tables and in main's statements is below the length of the table that it is of.
    ghost in_range: { names_within variables.items (map structure_of structures.items) (map object_of objects.items) (map procedure_of procedures.items) (map declared_location_of locations.items) (main_of main) ≡ true },
    // All bytes of a variable in RAM lie in its object, and those of one on the screen in its page.
    ghost views_lie: { views_lie (map object_of objects.items) variables.items ≡ true },
    // The objects have room together.
    ghost has_room: { sum_by (λ o. o.size) objects.items ≤ data_room },
    // The initial values of each object have room in it.
    ghost values_fit: { list_all values_fit (map object_of objects.items) ≡ true },
}
