//! How a tally is opened, and the steps of its home.

ghost use Rattle.std.specs.Prelude.{◌≡◌, ℕ, List, ◌+◌, ◌<◌, ◌≤◌, [], ◌∷◌, ◌++◌, slice_index, Some, IfOk};
ghost use Rattle.bcl_event.specs.History.{events};
ghost use Rattle.bcl_phase.specs.Parts.{home_view, home_key, IsSameHome};
ghost use Rattle.bcl_tally.specs.declared.tally.Call.TheVariants.{Swap};
ghost use Rattle.bcl_tally.specs.Tally.{next};
ghost use Rattle.bcl_tally.specs.Calls.{Knows, numbers};

use crate::tally::Tally;
use bcl_phase::Home;
use bcl_segment::{GlobalPtr, Layout, Spot};
use bcl_words::NoMemory;
use std::alloc::Global;
use std::marker::Brand;

/// A tally in which every rank has 0.
pub fn open(alloc: Global, ranks: u32) -> Result<Home<Tally>, NoMemory>
    requires ranks { (1 ≤ ranks) × (ranks ≤ 64) }
    ensures empty { IfOk result (λ h. (home_view h).seen ≡ []) }
    ensures key { IfOk result (λ h. home_key h ≡ ranks) }
{
    let layout = Layout { ranks, per_rank: 1 };
    let words = vec![in alloc; 0u64; ranks as usize]?;
    Home::new(alloc, layout, 0, words, &ranks)
}

/// The number of a rank, as the whole history left it. One get.
pub fn read(home: &mut Home<Tally>, place: u32) -> u64
    requires place { place < home_key home.old }
    ensures value { result ≡ slice_index (numbers (home_key home.old) (home_view home.old).seen) place }
    ensures knows { Knows (home_view home.old) (home_view home.new) place result }
    ensures seen { (home_view home.new).seen ≡ (home_view home.old).seen }
    ensures same { IsSameHome home.old home.new }
    ensures cost { (home_view home.new).gets ≡ (home_view home.old).gets + 1 }
{
    home.get::<Brand, u32>(
        Spot::At(GlobalPtr {
            rank: place,
            offset: 0,
        }),
        &place,
    )
}

/// The numbers of two ranks. Two gets, and both are of the one list of words that the home then knows.
pub fn read_both(home: &mut Home<Tally>, first: u32, second: u32) -> (u64, u64)
    requires places { (first < home_key home.old) × (second < home_key home.old) }
    ensures together { (ws : List ℕ) × ((home_view home.new).words ≡ Some ws) × (result.0 ≡ slice_index ws first) × (result.1 ≡ slice_index ws second) }
    ensures seen { (home_view home.new).seen ≡ (home_view home.old).seen }
    ensures same { IsSameHome home.old home.new }
    ensures cost { (home_view home.new).gets ≡ (home_view home.old).gets + 2 }
{
    let one = read(home, first);
    let other = read(home, second);
    (one, other)
}

/// Puts a number in the place of a rank's. It counts as two exchanges of the home, the first of which clears it. One put.
pub fn clear(home: &mut Home<Tally>, place: u32, n: u64)
    requires place { place < home_key home.old }
    ensures seen { (home_view home.new).seen ≡ (home_view home.old).seen ++ events (next (home_key home.old)) (home_view home.old).rank (numbers (home_key home.old) (home_view home.old).seen) (Swap place 0 ∷ Swap place n ∷ []) }
    ensures same { IsSameHome home.old home.new }
    ensures cost { (home_view home.new).puts ≡ (home_view home.old).puts + 1 }
{
    home.put::<Brand, (u32, u64)>(
        Spot::At(GlobalPtr {
            rank: place,
            offset: 0,
        }),
        n,
        &(place, n),
    );
}

/// Exchanges the numbers of two ranks for others, where nobody may see one without the other. Two puts.
pub fn swap_both(home: &mut Home<Tally>, first: (u32, u64), second: (u32, u64))
    requires places { (first.0 < home_key home.old) × (second.0 < home_key home.old) }
    ensures seen { (home_view home.new).seen ≡ (home_view home.old).seen ++ events (next (home_key home.old)) (home_view home.old).rank (numbers (home_key home.old) (home_view home.old).seen) (Swap first.0 first.1 ∷ Swap second.0 second.1 ∷ []) }
    ensures same { IsSameHome home.old home.new }
    ensures cost { (home_view home.new).puts ≡ (home_view home.old).puts + 2 }
{
    let one = Spot::At(GlobalPtr {
        rank: first.0,
        offset: 0,
    });
    let other = Spot::At(GlobalPtr {
        rank: second.0,
        offset: 0,
    });
    home.put_both::<Brand, ((u32, u64), (u32, u64))>(
        one,
        first.1,
        other,
        second.1,
        &(first, second),
    );
}

/// Tries the word of a rank: puts a number there, reads it back, and puts back the number that was there. Two gets and two
/// puts, and no call: in between the words mean nothing, so the home lets them be loose.
pub fn try_word(home: Home<Tally>, place: u32, n: u64) -> (Home<Tally>, u64)
    requires place { place < home_key home }
    ensures found { result.1 ≡ n }
    ensures seen { (home_view result.0).seen ≡ (home_view home).seen }
    ensures same { IsSameHome home result.0 }
    ensures cost { ((home_view result.0).gets ≡ (home_view home).gets + 2) × ((home_view result.0).puts ≡ (home_view home).puts + 2) }
{
    let number = Spot::At(GlobalPtr {
        rank: place,
        offset: 0,
    });
    let mut loose = home.loosen();
    let was = loose.get(number);
    loose.put(number, n);
    let found = loose.get(number);
    loose.put(number, was);
    (loose.mend(), found)
}
