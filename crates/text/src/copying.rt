// Slices copied by a loop: the library's copy is a call of memmove, which whoever links the calls for C would have to bring.
ghost use Rattle.std.specs.Prelude.{◌≡◌, length};

// Copies a slice onto another. Not inlined: beside constant texts the compiler would put in a call of memcpy.
#[inline(never)]
fn copy_all<T: Copy>(to: &mut [T], from: &[T])
    requires { length to.old ≡ length from.now }
    ensures { to.new ≡ from.now }
{
    for i in 0..to.len() {
        to[i] = from[i];
    }
}

// Copies a slice onto another of its length. One item, as a bracket of a term, is one store.
pub fn copy<T: Copy>(to: &mut [T], from: &[T])
    requires { length to.old ≡ length from.now }
    ensures { to.new ≡ from.now }
{
    match from {
        [one] => to[0] = *one,
        _ => copy_all(to, from),
    }
}
