//! A program's code with its registers: what it begins from and what it leaves are the memory's cells.

ghost use Rattle.std.specs.Prelude.{◌≡◌, ◌≢◌, ◌<◌, ◌≤◌, ◌+◌, ◌-◌, ◌^◌, IsTrue, length, get_or, pos};
ghost use Rattle.dp_tree.specs.declared.Program.{Program};
ghost use Rattle.dp_tree.specs.Inlined.{IsInlined};
ghost use Rattle.dp_tree.specs.Step.{standing};
ghost use Rattle.dp_meaning.specs.declared.ends.Part.TheVariants.{Plain};
ghost use Rattle.dp_meaning.specs.MachineState.{part_of};
ghost use Rattle.dp_meaning.specs.Places.{config_at, rest_at};
ghost use Rattle.dp_native.specs.Reaches.{Reaches};
ghost use Rattle.dp_forms.specs.Registers.{merged};
ghost use Rattle.dp_forms.specs.Codes.{IsWhole};

use super::codes::Code;
use super::state::State;
use dp_base::Row;
use dp_native::NativeProgram;
use dp_tree::Program;
use std::marker::PhantomData;

/// The code M with its N registers: their home cells, the memory's size, and how many sites the program has.
#[derive(Drop)]
pub struct Composed<const N: usize, M> {
    pub homes: [u32; N],
    pub size: u32,
    pub sites: u32,
    pub of: PhantomData<M>,
}

impl<const N: usize, M: Code<N>> Composed<N, M> {
    /// Whether the memory is as long as the code takes it to be, and neither the place nor the registers are too many.
    fn is_ready(&self, place: u32, cells: &[i64]) -> bool
        ensures { IsTrue result → (length cells.now ≡ self.now.size) × (place + 1 < 2 ^ 32) × (N ≤ 65536) }
    {
        cells.len() == self.size as usize && place < u32::MAX && N <= 65536
    }
}

impl<const N: usize, M: Code<N>> NativeProgram for Composed<N, M> {
    ghost suits = { λ composed program. IsWhole M.is_of composed.homes composed.size composed.sites program };

    fn is(&self, program: &Program) -> bool
        ensures { IsTrue result → IsWhole M.is_of self.now.homes self.now.size self.now.sites program.now }
    {
        program.sites.len() == self.sites as usize
            && M::is(program, &self.homes, self.size, program.main.as_slice())
    }

    fn run(
        &self,
        place: u32,
        input: &[i64],
        cells: &mut [i64],
        fuel: u64,
        out: &mut Row<i64>,
    ) -> (u32, u64)
        ensures { (p : Program) → IsInlined p → IsWhole M.is_of self.now.homes self.now.size self.now.sites p →
            part_of (rest_at p place) ≡ Plain →
            Reaches p input.now fuel out.old (config_at p (record { place = place; cells = cells.old })) result.1 out.new
            (standing p (rest_at p result.0) cells.new) }
    {
        let ready = self.is_ready(place, cells);
        if !ready {
            return (place, fuel);
        }
        let state = State {
            at: 0,
            fuel,
            registers: loaded(&self.homes, cells),
        };
        match M::enter(place + 1, input, cells, out, &state) {
            Some(to) => {
                put_back(&self.homes, &to.registers, cells);
                let next = place_of(to.at, self.sites);
                (next, to.fuel)
            }
            None => (place, fuel),
        }
    }
}

/// The machine's place of a site, or the one behind all.
fn place_of(at: u64, sites: u32) -> u32
    requires { at < 2 ^ 32 }
    ensures done { at ≡ 0 → result ≡ sites }
    ensures left { at ≢ 0 → result ≡ at - 1 }
{
    if at == 0 { sites } else { (at - 1) as u32 }
}

/// The values of the registers' home cells.
fn loaded<const N: usize>(homes: &[u32; N], cells: &[i64]) -> [i64; N]
    ensures { merged homes.now result cells.now ≡ cells.now }
{
    let mut registers = [0i64; N];
    for k in 0..N {
        let value = value_at(cells, homes[k]);
        registers[k] = value;
    }
    registers
}

/// What the cell holds, or 0 where there is none.
fn value_at(cells: &[i64], cell: u32) -> i64
    ensures { result ≡ get_or cells.now cell (pos 0) }
{
    let place = cell as usize;
    if place < cells.len() { cells[place] } else { 0 }
}

/// Puts the registers into their home cells.
fn put_back(homes: &[u32], registers: &[i64], cells: &mut [i64])
    ensures { cells.new ≡ merged homes.now registers.now cells.old }
{
    match homes {
        [home, homes_behind @ ..] => match registers {
            [register, registers_behind @ ..] => {
                put_back(homes_behind, registers_behind, cells);
                let place = *home as usize;
                if place < cells.len() {
                    cells[place] = *register;
                }
            }
            [] => {}
        },
        [] => {}
    }
}
