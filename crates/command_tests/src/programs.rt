//! Image texts of small loops.

/// Each of four epochs adds its number to the word at 64.
///
/// `lw x5,64(x0); add x5,x5,x10; sw x5,64(x0); jalr x0,0(x1)`
pub const SUM_OF_FOUR: &str =
    "size 256\nepochs 4\nlimit 100\ncode 83220004b382a2002320500467800000\n";

/// The same of a hundred epochs.
pub const SUM_OF_HUNDRED: &str =
    "size 256\nepochs 100\nlimit 100\ncode 83220004b382a2002320500467800000\n";

/// The same of three epochs.
const SUM_OF_THREE: &str = "size 256\nepochs 3\nlimit 100\ncode 83220004b382a2002320500467800000\n";

/// The same of no epochs.
const SUM_OF_NONE: &str = "size 256\nepochs 0\nlimit 100\ncode 83220004b382a2002320500467800000\n";

/// The same of four epochs, in version 2.
const SUM_IN_VERSION_2: &str =
    "version 2\nsize 256\nepochs 4\nlimit 100\ncode 83220004b382a2002320500467800000\n";

/// Each of two epochs stores its number to its word from 64 on.
///
/// `slli x5,x10,2; sw x10,64(x5); jalr x0,0(x1)`
pub const WORDS_OF_TWO: &str = "size 256\nepochs 2\nlimit 100\ncode 9312250023a0a20467800000\n";

/// The same of four epochs.
const WORDS_OF_FOUR: &str = "size 256\nepochs 4\nlimit 100\ncode 9312250023a0a20467800000\n";

/// The same of eight epochs.
pub const WORDS_OF_EIGHT: &str = "size 256\nepochs 8\nlimit 100\ncode 9312250023a0a20467800000\n";

/// The same of sixteen epochs, in version 2.
pub const WORDS_OF_SIXTEEN: &str =
    "version 2\nsize 256\nepochs 16\nlimit 100\ncode 9312250023a0a20467800000\n";

/// Epoch 0 stores 1 to the word at 64, and epoch 1 loops until it loads that.
///
/// `beq x10,x0,+16; lw x5,64(x0); beq x5,x0,-4; jalr x0,0(x1); addi x5,x0,1; sw x5,64(x0); jalr x0,0(x1)`
const SIGNAL: &str =
    "size 256\nepochs 2\nlimit 50\ncode 6308050083220004e38e02fe67800000930210002320500467800000\n";

/// Each of eight epochs stores its number to its word, and epoch 2 exits.
///
/// `slli x5,x10,2; sw x10,64(x5); xori x10,x10,2; sltiu x10,x10,1; jalr x0,0(x1)`
const EXIT: &str =
    "size 256\nexit\nepochs 8\nlimit 100\ncode 9312250023a0a204134525001335150067800000\n";

/// One epoch that stores a word, and then one into its own code, which is a fault.
///
/// `sw x1,64(x0); sw x0,0(x0)`
const FAULT: &str = "size 256\nepochs 1\nlimit 100\ncode 2320100423200000\n";

/// The text that has this name in a row.
pub fn text_named(name: &str) -> &'static str {
    match name {
        "SUM_OF_FOUR" => SUM_OF_FOUR,
        "SUM_OF_THREE" => SUM_OF_THREE,
        "SUM_OF_NONE" => SUM_OF_NONE,
        "WORDS_OF_FOUR" => WORDS_OF_FOUR,
        "SIGNAL" => SIGNAL,
        "EXIT" => EXIT,
        "SUM_IN_VERSION_2" => SUM_IN_VERSION_2,
        "FAULT" => FAULT,
        _ => "",
    }
}
