ghost use Rattle.shm_laws.specs.Worked as worked;

/// The worked histories are legal, and have the properties that their rows name, by computation.
fn worked_histories()
    ensures replay { worked.ReplayWorked }
    ensures removal { worked.RemovalWorked }
    ensures pieces { worked.PiecesWorked }
    ensures permission { worked.PermissionWorked }
    ensures writing { worked.WritingWorked }
    ensures isolation { worked.IsolationWorked }
    ensures keys { worked.KeysWorked }
    ensures size { worked.SizeWorked }
    ensures spaces { worked.SpacesWorked }
{}
