//! What occurs, by draws of the generator.
ghost use Rattle.std.specs.Prelude.{◌≡◌};
ghost use Rattle.soak_input.specs.Occurrences.{amount_of, counter_of, fifth, is_kernel, occurrence_after, select_of, umask_of};

use crate::Generator;

/// An occurrence of the first component: select code and umask of an event, the mode, an amount from 1 to 255, and the program
/// counter.
#[derive(Clone, Copy)]
pub struct Occurrence {
    pub select: u8,
    pub umask: u8,
    pub is_kernel: bool,
    pub amount: u8,
    pub program_counter: u32,
}

fn select_of(draw: u32) -> u8
    ensures { result ≡ select_of draw }
{
    match draw % 5 {
        0 => 0xc0,
        1 => 0x3c,
        2 => 0xc4,
        3 => 0xc5,
        _ => 0x2e,
    }
}

fn umask_of(draw: u32) -> u8
    ensures { result ≡ umask_of draw }
{
    if draw % 2 == 0 { 0x01 } else { 0x02 }
}

impl Occurrence {
    /// The occurrence of the next five draws.
    #[tactic(auto, unfolding(crate::specs::Occurrences::occurrence_after))]
    pub fn draw(generator: &mut Generator) -> Occurrence
        ensures drawn { result ≡ occurrence_after generator.old }
        ensures after { generator.new ≡ fifth generator.old }
    {
        let select = select_of(generator.draw());
        let umask = umask_of(generator.draw());
        let is_kernel = generator.draw() % 4 == 0;
        let amount = 1 + (generator.draw() % 255) as u8;
        let program_counter = 0x400000 + generator.draw() % 4096;
        Occurrence {
            select,
            umask,
            is_kernel,
            amount,
            program_counter,
        }
    }
}
