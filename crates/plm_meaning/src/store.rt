//! What main and the interrupt procedures share: the bytes of the RAM objects and of the screen's pages, and the chips.

ghost use Rattle.std.specs.Prelude.{◌≡◌, ◌%◌, ◌<◌, slice_index, slice_set};
ghost use Rattle.word86.specs.Access.{Read, Write, values};
ghost use Rattle.word86.specs.Page.{page_of, with_page};
ghost use Rattle.word86.specs.Place.{where_of, access_of};
ghost use Rattle.ppi_kbd.specs.Chips.{ChipState, value as port_value, reading, writing};
ghost use Rattle.ppi_kbd.specs.Ports.{Shows};
ghost use Rattle.ppi_kbd.specs.BoardChips.{board_chips};
ghost use Rattle.plm_meaning.specs.Store.{value_at, with_value, screen_label, input_label, output_label, touch};
ghost use Rattle.plm_meaning.specs.Shown.{screen_of, store_of, labels_of};
ghost use Rattle.plm_meaning.specs.Inner.Shown.{Leaves};
ghost use Rattle.plm_meaning.specs.Inner.Redex.{Fits};

use plm_type::Place;
use ppi_kbd::Ports;
use word86::{Access, Label, Page, Width};

/// The bytes of each RAM object, those of the screen's pages, and the chips.
#[derive(Drop)]
pub struct Store {
    pub objects: Vec<Vec<u8>>,
    /// The page from address 0B8000H on.
    pub colour: Vec<u8>,
    /// The page from address 0B0000H on.
    pub monochrome: Vec<u8>,
    pub ports: Ports,
}

// A byte; 0 where there is none.
fn byte(bytes: &[u8], at: usize) -> u16
    ensures value { result ≡ slice_index bytes.now at % 256 }
    ensures small { result < 256 }
{
    match bytes.get(at) {
        None => 0,
        Some(b) => u16::from(*b),
    }
}

// The value at an index, low byte first.
fn value(width: Width, bytes: &[u8], at: u16) -> u16
    ensures { result ≡ value_at width bytes.now at }
{
    let at = usize::from(at);
    match width {
        Width::Byte => byte(bytes, at),
        Width::Word => byte(bytes, at) + 256 * byte(bytes, at + 1),
    }
}

fn put(bytes: &mut Vec<u8>, at: usize, b: u8)
    ensures { bytes.new.items ≡ slice_set bytes.old.items at b }
{
    if at < bytes.len() {
        bytes[at] = b;
    }
}

// Stores a value at an index, low byte first.
fn put_value(bytes: &mut Vec<u8>, width: Width, at: u16, v: u16)
    requires { v < values width }
    ensures { bytes.new.items ≡ with_value width bytes.old.items at v }
{
    let at = usize::from(at);
    put(bytes, at, (v % 256) as u8);
    match width {
        Width::Byte => {}
        Width::Word => put(bytes, at + 1, (v / 256) as u8),
    }
}

fn screen_label(page: Page, width: Width, at: u16, v: u16) -> Label
    requires { v < values width }
    ensures { result ≡ screen_label page width at v }
{
    match (page, width) {
        (Page::Monochrome, Width::Byte) => Label::Mono(at, v as u8),
        (Page::Monochrome, Width::Word) => Label::MonoW(at, v),
        (Page::Colour, Width::Byte) => Label::Scr(at, v as u8),
        (Page::Colour, Width::Word) => Label::ScrW(at, v),
    }
}

impl Store {
    // The bytes of a page of the screen.
    fn page(&self, page: Page) -> &[u8]
        ensures { result.now ≡ page_of page (screen_of self.now) }
    {
        match page {
            Page::Monochrome => &self.monochrome,
            Page::Colour => &self.colour,
        }
    }

    // Stores a value in a page of the screen.
    fn put_on_page(&mut self, page: Page, width: Width, at: u16, v: u16)
        requires { v < values width }
        ensures screen { screen_of self.new ≡ with_page page (with_value width (page_of page (screen_of self.old)) at v) (screen_of self.old) }
        ensures objects { self.new.objects ≡ self.old.objects }
        ensures ports { self.new.ports ≡ self.old.ports }
    {
        match page {
            Page::Monochrome => put_value(&mut self.monochrome, width, at, v),
            Page::Colour => put_value(&mut self.colour, width, at, v),
        }
    }

    fn read(&self, width: Width, place: Place) -> u16
        ensures { (c : ChipState) → result ≡ (touch board_chips (Read width (where_of place)) (store_of self.now c)).0 }
    {
        match place {
            Place::Screen(page, at) => value(width, self.page(page), at),
            Place::Ram(k, at) => match self.objects.get(k) {
                None => value(width, &[], at),
                Some(bytes) => value(width, bytes, at),
            },
        }
    }

    fn write(&mut self, width: Width, place: Place, v: u16) -> Option<Label>
        requires { v < values width }
        ensures store { (c : ChipState) → store_of self.new c ≡ (touch board_chips (Write width (where_of place) v) (store_of self.old c)).1 }
        ensures labels { (c : ChipState) → labels_of result ≡ (touch board_chips (Write width (where_of place) v) (store_of self.old c)).2 }
        ensures ports { self.new.ports ≡ self.old.ports }
    {
        match place {
            Place::Screen(page, at) => {
                self.put_on_page(page, width, at, v);
                Some(screen_label(page, width, at, v))
            }
            Place::Ram(k, at) => {
                if k < self.objects.len() {
                    put_value(&mut self.objects[k], width, at, v);
                }
                None
            }
        }
    }

    // Reads a port.
    fn input(&mut self, width: Width, port: u16) -> (u16, Label)
        ensures value { (c : ChipState) → Shows self.old.ports c → result.0 ≡ port_value c width port }
        ensures label { result.1 ≡ input_label width port result.0 }
        ensures ports { (c : ChipState) → Shows self.old.ports c → Shows self.new.ports (reading c width port) }
        ensures objects { self.new.objects ≡ self.old.objects }
        ensures colour { self.new.colour ≡ self.old.colour }
        ensures monochrome { self.new.monochrome ≡ self.old.monochrome }
    {
        match width {
            Width::Byte => {
                let v = self.ports.read(port);
                (u16::from(v), Label::In(port, v))
            }
            Width::Word => {
                let v = self.ports.read_word(port);
                (v, Label::InW(port, v))
            }
        }
    }

    // Writes to a port.
    fn output(&mut self, width: Width, port: u16, v: u16) -> Label
        requires { v < values width }
        ensures label { result ≡ output_label width port v }
        ensures ports { (c : ChipState) → Shows self.old.ports c → Shows self.new.ports (writing c width port v) }
        ensures objects { self.new.objects ≡ self.old.objects }
        ensures colour { self.new.colour ≡ self.old.colour }
        ensures monochrome { self.new.monochrome ≡ self.old.monochrome }
    {
        match width {
            Width::Byte => {
                self.ports.write(port, v as u8);
                Label::Out(port, v as u8)
            }
            Width::Word => {
                self.ports.write_word(port, v);
                Label::OutW(port, v)
            }
        }
    }

    /// Makes an access: what it answers, and its label. Reads and stores of variables have none.
    pub fn touch(&mut self, access: &Access) -> (u16, Option<Label>)
        requires { Fits (access_of access.now) }
        ensures answer { (c : ChipState) → Shows self.old.ports c → result.0 ≡ (touch board_chips (access_of access.now) (store_of self.old c)).0 }
        ensures labels { (c : ChipState) → Shows self.old.ports c → labels_of result.1 ≡ (touch board_chips (access_of access.now) (store_of self.old c)).2 }
        ensures store { (c : ChipState) → Shows self.old.ports c → Leaves self.new ((touch board_chips (access_of access.now) (store_of self.old c)).1) }
    {
        match access {
            Access::Read(width, place) => (self.read(*width, *place), None),
            Access::Write(width, place, v) => (0, self.write(*width, *place, *v)),
            Access::Input(width, port) => {
                let (v, label) = self.input(*width, *port);
                (v, Some(label))
            }
            Access::Output(width, port, v) => (0, Some(self.output(*width, *port, *v))),
        }
    }
}
