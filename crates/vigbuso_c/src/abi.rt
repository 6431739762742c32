// Which calls and which book an archive has, by name, for C.
ghost use Rattle.std.specs.Prelude.{◌≡◌};

#[unsafe(no_mangle)]
pub extern "C" fn vigbuso_abi_7() -> u32
    ensures { result ≡ 7 }
{
    vigbuso::abi::vigbuso_abi_7()
}
