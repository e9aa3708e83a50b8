//! What native code carries from statement to statement.

ghost use Rattle.std.specs.Prelude.{◌≡◌, ◌≤◌, ◌-◌, ◌<◌, slice_set};

/// Where the code stands, the fuel that is left, and the registers. `at` is 0 where it goes on behind the statements that
/// were run, and else the site of the one that it leaves to the machine.
#[derive(Clone, Copy)]
pub struct State<const N: usize> {
    pub at: u64,
    pub fuel: u64,
    pub registers: [i64; N],
}

impl<const N: usize> State<N> {
    /// The same state, at a site that isn't executed.
    #[inline(always)]
    pub fn left_at(self, site: u32) -> State<N>
        ensures at { result.at ≡ site }
        ensures fuel { result.fuel ≡ self.entry.fuel }
        ensures registers { result.registers ≡ self.entry.registers }
    {
        State {
            at: site as u64,
            ..self
        }
    }

    /// The state a step later.
    #[inline(always)]
    pub fn stepped(self) -> State<N>
        requires { 1 ≤ self.fuel }
        ensures at { result.at ≡ self.entry.at }
        ensures fuel { result.fuel ≡ self.entry.fuel - 1 }
        ensures registers { result.registers ≡ self.entry.registers }
    {
        State {
            fuel: self.fuel - 1,
            ..self
        }
    }

    /// .. whose statement put a value into a register.
    #[inline(always)]
    pub fn holding(self, register: usize, value: i64) -> State<N>
        requires fuel { 1 ≤ self.fuel }
        requires register { register < N }
        ensures at { result.at ≡ self.entry.at }
        ensures fuel { result.fuel ≡ self.entry.fuel - 1 }
        ensures registers { result.registers ≡ slice_set self.entry.registers register value }
    {
        let mut state = self.stepped();
        state.registers[register] = value;
        state
    }
}
