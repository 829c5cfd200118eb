// Which options a verb can have.
#![tactic(auto)]

ghost use Rattle.std.specs.Prelude.{◌≡◌};
ghost use Rattle.support.specs.Table15.{allowed};

// Table 15 of DSP0214, by the options' and the verbs' numbers; 0 is none's. `X` shall, `2` should, `1` may, `.` shall not be supported. Rows of bytes show it as it is printed.
const TABLE: [[u8; 14]; 13] = [
    *b"..............",
    *b"..........X...", // all
    *b"....X.........", // destination
    *b"..........X...", // display
    *b".XXXXXXXXXXXXX", // examine
    *b"...21..122122.", // force
    *b".XXXXXXXXXXXXX", // help
    *b".XXXXXXXXXXXXX", // keep
    *b"..........X...", // level
    *b".XXXXXXXXXXXXX", // output
    *b".......X......", // source
    *b".XXXXXXXXXXXXX", // version
    *b".XXXX.XXXXXXXX", // wait
];

// Whether a verb can have an option, by their numbers.
pub fn allows(verb: u8, option: u8) -> bool
    ensures { result ≡ allowed verb option }
{
    let Some(row) = TABLE.get(usize::from(option)) else {
        return false;
    };
    row.get(usize::from(verb)).is_some_and(|cell| b'.' < *cell)
}
