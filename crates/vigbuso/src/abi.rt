// Which calls and which book an archive has, by name: a program that refers to this name links with no archive of another number.
ghost use Rattle.std.specs.Prelude.{◌≡◌};

// The name has the number. Both change when a program or a book of before would be misread.
#[unsafe(no_mangle)]
pub extern "C" fn vigbuso_abi_7() -> u32
    ensures { result ≡ 7 }
{
    7
}
