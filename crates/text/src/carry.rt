// What is carried of a line that has not ended: its octets at the start of lent room, as far as there is room.
ghost use Rattle.std.specs.Prelude.{◌≡◌, ◌++◌, ◌≤◌, length, take};

// More octets of the line after those that are kept; how many there are then.
pub fn keep(room: &mut [u8], count: usize, octets: &[u8]) -> usize
    requires { count ≤ length room.old }
    ensures { (result ≤ length room.new) × (take result room.new ≡ take (length room.old) (take count room.old ++ octets.now)) }
{
    let n = octets.len().min(room.len() - count);
    let end = count + n;
    room[count..end].copy_from_slice(&octets[..n]);
    end
}
