// What writing a line answered, as tests compare it.
use fields::fault::LineFault;
use tariff::refusal::Refusal;

// A refusal by its number, layer and field.
macro_rules! refused {
    ($number:literal, $layer:literal, $field:expr) => {
        Err(Refusal {
            number: $number,
            layer: $layer,
            field: $field,
        })
    };
}

pub(crate) use refused;

// What writing into a buffer of so many places answered; none where a refusal did not leave the buffer as it was, or a line did.
pub(crate) fn written<F: FnOnce(&mut [u8]) -> Result<usize, LineFault>>(
    places: usize,
    write: F,
) -> Option<Result<usize, Refusal>>
    requires { F.IsAlwaysCallable write }
{
    let mut buffer = [b'.'; 300];
    let out = buffer.get_mut(0..places)?;
    let answer = write(out);
    let left = buffer == [b'.'; 300];
    (left == answer.is_err()).then_some(answer.map_err(Refusal::from))
}
